ghost use Rattle.std.specs.Prelude.{◌≡◌, ℕ, ◌^◌, ◌<◌, ◌≤◌};
ghost use Rattle.hyper_model.specs.Words.{is_busy as is_busy_in};
ghost use Rattle.hyper_model.specs.Laws.{level as level_of};

/// Whether this unit, counted from 0, is busy in the word.
pub fn is_busy(word: u16, unit: u8) -> bool
    requires { unit < 16 }
    ensures { result ≡ is_busy_in word unit }
{
    (word >> unit) & 1 == 1
}

/// The number of busy units of a word.
pub fn level(word: u16) -> u8
    ensures busy { (units : ℕ) → word < 2 ^ units → result ≡ level_of units word }
    ensures most { result ≤ 16 }
{
    word.count_ones() as u8
}
