// The operands and variables of a text, each read at a place.

#![tactic(auto)]

ghost use Rattle.std.specs.Prelude.{◌+◌, ◌-◌, ◌≤◌, ◌<◌, ◌≡◌, pos, negsuc, length, [], ◌∷◌};
ghost use Rattle.std.proofs.Math.Option.{some};
ghost use Rattle.text.specs.Value.{as_var, as_const, as_negative};
ghost use Rattle.scan.specs.Place.{AfterKey};
ghost use Rattle.operands.specs.Answer.{operand_answer, skip, operand_kind, OperandAs, OperandIn, OperandAt, VariableSaid, VariableIn, VariableAt};

use table::Operand;
use text::Fault;

// An operand that ends at e. A variable: the number x behind `v`.
pub fn named_operand(x: u64, e: usize, vars: u64) -> Result<(Operand, usize), Fault>
    requires { vars ≤ 256 }
    ensures { result ≡ operand_answer vars (as_var (some x)) e }
{
    if x < vars {
        Ok((Operand::Var(x as u8), e))
    } else {
        Err(Fault::Reference)
    }
}

pub fn constant_operand(x: u64, e: usize, vars: u64) -> Result<(Operand, usize), Fault>
    ensures { result ≡ operand_answer vars (as_const (some x)) e }
{
    match i32::try_from(x) {
        Ok(z) => Ok((Operand::Const(z), e)),
        Err(_) => Err(Fault::Range),
    }
}

// The number x behind `-`.
pub fn negative_operand(x: u64, e: usize, vars: u64) -> Result<(Operand, usize), Fault>
    ensures { result ≡ operand_answer vars (as_negative (some x)) e }
{
    if x == 0 {
        return Err(Fault::Misspelt);
    }
    if x <= 2147483648 {
        Ok((Operand::Const(-(x as i64) as i32), e))
    } else {
        Err(Fault::Range)
    }
}

// An operand that begins with the byte b: where its digits begin, and what they say.
fn digits_from(b: u8, at: usize) -> usize
    requires { at < 18446744073709551615 }
    ensures { result ≡ at + skip b }
{
    match b {
        b'v' | b'-' => at + 1,
        _ => at,
    }
}

fn any_operand(b: u8, x: u64, e: usize, vars: u64) -> Result<(Operand, usize), Fault>
    requires { vars ≤ 256 }
    ensures { result ≡ operand_answer vars (operand_kind b (some x)) e }
{
    match b {
        b'v' => named_operand(x, e, vars),
        b'-' => negative_operand(x, e, vars),
        _ => constant_operand(x, e, vars),
    }
}

// The number behind `v`, short ones first.
fn variable_operand(s: &[u8], at: usize, vars: u64) -> Result<(Operand, usize), Fault>
    requires { (at ≤ length s.now) × (vars ≤ 256) }
    ensures { OperandAs as_var vars s.now at result }
{
    let (x, e) = numbers::value_number(s, at)?;
    named_operand(x, e, vars)
}

fn operand_at(s: &[u8], at: usize, vars: u64) -> Result<(Operand, usize), Fault>
    requires { (at ≤ length s.now) × (vars ≤ 256) }
    ensures { OperandIn vars s.now at result }
{
    if s.len() <= at {
        return Err(Fault::Ended);
    }
    let b = s[at];
    if b == b'v' {
        return variable_operand(s, at + 1, vars);
    }
    let (x, e) = numbers::numeral_at(s, digits_from(b, at))?;
    any_operand(b, x, e, vars)
}

// The place after an operand's key, whose name is one letter: tested without the loop of `scan::after`, for speed, where three bytes are left.
fn after_name(s: &[u8], at: usize, name: u8) -> Result<usize, Fault>
    requires { at ≤ length s.now }
    ensures { AfterKey (32 ∷ name ∷ 61 ∷ []) s.now at result }
{
    if s.len() - at < 3 {
        return scan::after(s, at, &[b' ', name, b'=']);
    }
    if s[at] == b' ' && s[at + 1] == name && s[at + 2] == b'=' {
        Ok(at + 3)
    } else {
        Err(Fault::Form)
    }
}

// A variable or a constant, with so many variables declared, and the place after it.
pub fn operand_field(s: &[u8], at: usize, name: u8, vars: u64) -> Result<(Operand, usize), Fault>
    requires { (at ≤ length s.now) × (vars ≤ 256) }
    ensures { OperandAt vars (32 ∷ name ∷ 61 ∷ []) s.now at result }
{
    let b = after_name(s, at, name)?;
    operand_at(s, b, vars)
}

// ---- variables

fn variable_value(t: &[u8], e: usize, closed: bool, vars: u64) -> Result<(u8, usize), Fault>
    requires { vars ≤ 256 }
    ensures { VariableSaid closed vars t.now e result }
{
    if scan::is_word(t, b"-") {
        if closed {
            return Ok((table::REMOVED, e));
        }
        return Err(Fault::Misspelt);
    }
    let v = digits::number(t).ok_or(Fault::Misspelt)?;
    if v < vars {
        Ok((v as u8, e))
    } else {
        Err(Fault::Reference)
    }
}

// Any value.
fn any_variable(s: &[u8], at: usize, closed: bool, vars: u64) -> Result<(u8, usize), Fault>
    requires { (at ≤ length s.now) × (vars ≤ 256) }
    ensures { VariableIn closed vars s.now at result }
{
    let (b, e) = scan::value_at(s, at)?;
    variable_value(&s[b..e], e, closed, vars)
}

// Short numbers first.
fn variable_at(s: &[u8], at: usize, closed: bool, vars: u64) -> Result<(u8, usize), Fault>
    requires { (at ≤ length s.now) × (vars ≤ 256) }
    ensures { VariableIn closed vars s.now at result }
{
    let Some((v, e)) = numbers::short_value(s, at) else {
        return any_variable(s, at, closed, vars);
    };
    if v < vars {
        Ok((v as u8, e))
    } else {
        Err(Fault::Reference)
    }
}

// A variable, with so many declared, and the place after it; in closed form it may be `-`.
pub fn variable_field(s: &[u8], at: usize, closed: bool, vars: u64) -> Result<(u8, usize), Fault>
    requires { (at ≤ length s.now) × (vars ≤ 256) }
    ensures { VariableAt closed vars s.now at result }
{
    let b = scan::after_word(s, at, b' ', b'v', b'a', b'r', b"=")?;
    variable_at(s, b, closed, vars)
}
