// The explorer for Rust and C. It is a library of its own, so that the search is compiled for it alone.

#![tactic(auto)]

ghost use Rattle.exploring.specs.Program.{explore_text};
ghost use Rattle.put.specs.Put.{Put};

// What the program `explore` prints for a text, a depth and the most steps tried, as far as the buffer reaches, and its length, at most 131,072.
#[unsafe(no_mangle)]
pub extern "C" fn bufshani_explore(text: &[u8], depth: usize, bound: u64, out: &mut [u8]) -> usize
    ensures { Put 131072 out.old 0 (explore_text text.now depth bound) out.new result }
{
    explore_text::explore_text(text, depth, bound, out)
}
