// The last words of the program `run`: LOG, and none behind it.

#![tactic(auto)]

ghost use Rattle.std.specs.Prelude.{◌≡◌, ◌≤◌, List, [], ◌∷◌, ℕ, ℤ, IfOk};
ghost use Rattle.machine.specs.Words.{given};
ghost use Rattle.machine.specs.Program.{most_bytes};
ghost use Rattle.log_word.specs.Words.{from_log, rest_words};

// LOG is missing or can't be read, or there is a further word.
#[derive(Clone, Copy)]
pub enum Unread {
    Log,
    Further,
}

// The length of the log buffer, as the words from LOG on say; n of them are left.
pub fn last_words(n: usize, word: &[u8]) -> Result<usize, Unread>
    ensures says { (ks : List ℕ) (vs : List ℤ) (m : ℕ) → from_log ks vs m (given n (word.now ∷ [])) ≡ rest_words ks vs m result }
    ensures fits { IfOk result (λ k. k ≤ most_bytes) }
{
    if n == 0 {
        return Err(Unread::Log);
    }
    let k = arguments::log(word).ok_or(Unread::Log)?;
    let further = n != 1;
    if further {
        return Err(Unread::Further);
    }
    Ok(k)
}
