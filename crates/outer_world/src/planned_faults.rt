ghost use Rattle.std.specs.Prelude.{◌≡◌, ◌+◌, ◌-◌, ◌^◌, ◌≤◌, min, true, false, nat_eq};
ghost use Rattle.std.specs.List.{list_any};
ghost use Rattle.outer_world.specs.Faults.{is_planned};

/// Counts calls, and fails those that are planned to fail.
#[derive(Drop)]
pub(crate) struct PlannedFaults<'a> {
    pub fails: &'a [u64],
    pub calls: u64,
    pub count: u64,
    ghost within_calls: { count ≤ calls },
}

impl<'a> PlannedFaults<'a> {
    pub(crate) fn of(fails: &'a [u64]) -> PlannedFaults<'a>
        ensures fails { result.fails.now ≡ fails.now }
        ensures calls { result.calls ≡ 0 }
        ensures count { result.count ≡ 0 }
    {
        PlannedFaults {
            fails,
            calls: 0,
            count: 0,
        }
    }

    /// Whether the next call is to fail, counted as a call and, if so, as a fault.
    pub(crate) fn strikes(&mut self) -> bool
        ensures planned { result ≡ is_planned self.old.fails.now self.old.calls }
        ensures fails { self.new.fails.now ≡ self.old.fails.now }
        ensures calls { self.new.calls ≡ min (self.old.calls + 1) (2 ^ 64 - 1) }
        ensures fault { result ≡ true → self.new.count ≡ self.old.count + 1 }
        ensures none { result ≡ false → self.new.count ≡ self.old.count }
    {
        if self.calls == u64::MAX {
            return false;
        }
        self.calls += 1;
        if !has_number(self.fails, self.calls) {
            return false;
        }
        self.count += 1;
        true
    }
}

fn has_number(numbers: &[u64], number: u64) -> bool
    ensures { result ≡ list_any (λ x. nat_eq x number) numbers.now }
{
    numbers.iter().any(|x| *x == number)
}
