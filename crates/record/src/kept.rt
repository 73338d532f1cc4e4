// What is kept at a place: a trade or a cross. All that is done to the one is done to the other by the same functions.
ghost use Rattle.std.specs.Prelude.{◌≡◌, Bool, false, ℕ};

pub(crate) trait Kept: Copy {
    ghost number: { Self → ℕ };

    ghost live: { Self → Bool };

    ghost volume: { Self → ℕ };

    ghost empty: { Self };

    fn number(self) -> u32
        ensures { result ≡ number self };

    fn live(self) -> bool
        ensures { result ≡ live self };

    fn volume(self) -> u32
        ensures { result ≡ volume self };

    // An empty place, all zero.
    fn empty() -> Self
        ensures { result ≡ empty };

    ghost dead: { live empty ≡ false };
}
