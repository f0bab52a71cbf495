// The laws of lines that are read field by field: specs/ alone.

#![tactic(auto)]
