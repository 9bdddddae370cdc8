//! What is judged of types that meet.

ghost use Rattle.std.specs.Prelude.{◌≡◌, ◌&&◌, Bool, true, false};
ghost use Rattle.nll_body.specs.Judging.{IsJudged};

/// What is judged of types that meet, or of all those of a statement.
#[derive(Clone, Copy)]
pub struct Judgement {
    /// Each variable is declared.
    pub declared: bool,
    /// Each place has a type, and the types that must be equal when regions are erased are.
    pub fits: bool,
    /// They fit, and none of the types is larger than a type may be.
    pub small: bool,
}

impl Judgement {
    /// The types fit, and they are small or not.
    pub fn fitting(declared: bool, small: bool) -> Judgement
        ensures declared { result.declared ≡ declared }
        ensures judged { IsJudged true small result }
    {
        Judgement {
            declared,
            fits: true,
            small,
        }
    }

    /// The types don't fit.
    pub fn unfit(declared: bool) -> Judgement
        ensures declared { result.declared ≡ declared }
        ensures judged { (small : Bool) → IsJudged false small result }
    {
        Judgement {
            declared,
            fits: false,
            small: false,
        }
    }

    /// What is judged of both together.
    pub fn and(self, other: Judgement) -> Judgement
        ensures declared { result.declared ≡ (self.declared && other.declared) }
        ensures fits { result.fits ≡ (self.fits && other.fits) }
        ensures small { result.small ≡ (self.small && other.small) }
    {
        Judgement {
            declared: self.declared & other.declared,
            fits: self.fits & other.fits,
            small: self.small & other.small,
        }
    }
}
