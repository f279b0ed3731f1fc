// The trait of every kind of length: six operations, tied to the kind they compute, and its laws.
ghost use Rattle.std.specs.Prelude.{◌≡◌};
ghost use Rattle.lengths.specs.Kind.{Kind, Laws};

pub trait Length: Copy {
    ghost kind: { Kind Self };

    fn zero() -> Self
        ensures { result ≡ kind.zero };

    fn sum(self, other: Self) -> Self
        ensures { result ≡ kind.sum self other };

    fn opposite(self) -> Self
        ensures { result ≡ kind.opposite self };

    fn at_most(self, other: Self) -> bool
        ensures { result ≡ kind.at_most self other };

    fn measure(self) -> u64
        ensures { result ≡ kind.measure self };

    fn far() -> Self
        ensures { result ≡ kind.far };

    ghost laws: { Laws kind };
}
