// Own and free ticks counted apart.
ghost use Rattle.std.specs.Prelude.{◌≡◌, ℕ, ◌+◌, ◌-◌, ◌<◌, nat_lt};
ghost use Rattle.level.specs.Pass.{one, is_own, is_free, takes};

// What a tick is to an activity that looks for ticks: its own, nobody's, or not to be had. Three cases of one question, and no
// `Option` of two, since not to be had is an answer like the others.
#[derive(Clone, Copy)]
pub(crate) enum Kind {
    Own,
    Free,
    Taken,
}

// So many own ticks, and so many free ones.
#[derive(Clone, Copy)]
pub(crate) struct Supply {
    pub(crate) own: u16,
    pub(crate) free: u16,
}

// Whether there is still one; if so it goes.
fn spend(left: &mut u16) -> bool
    ensures value { result ≡ nat_lt 0 left.old }
    ensures after { left.new ≡ left.old - 1 }
{
    let some = *left > 0;
    *left = left.saturating_sub(1);
    some
}

impl Supply {
    // One tick more.
    pub(crate) fn add(&mut self, kind: Kind)
        requires { (self.old.own < 65535) × (self.old.free < 65535) }
        ensures own { self.new.own ≡ self.old.own + one (is_own kind) }
        ensures free { self.new.free ≡ self.old.free + one (is_free kind) }
    {
        match kind {
            Kind::Own => self.own += 1,
            Kind::Free => self.free += 1,
            Kind::Taken => {}
        }
    }

    // Whether there is still one of this kind; if so it goes.
    pub(crate) fn take(&mut self, kind: Kind) -> bool
        ensures value { result ≡ takes self.old.own self.old.free kind }
        ensures own { self.new.own ≡ self.old.own - one (is_own kind) }
        ensures free { self.new.free ≡ self.old.free - one (is_free kind) }
    {
        match kind {
            Kind::Own => spend(&mut self.own),
            Kind::Free => spend(&mut self.free),
            Kind::Taken => false,
        }
    }
}
