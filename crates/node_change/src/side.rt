// Which of two stores stopped.
ghost use Rattle.std.specs.Prelude.{◌≡◌, IfErr};
ghost use Rattle.node_change.specs.Both.{stopped};

use store_rows::Stop;

/// One of two stores.
#[derive(Clone, Copy, Debug, Drop, PartialEq, Eq)]
pub enum Side {
    /// The store that is read.
    From,
    /// The store that is changed.
    To,
}

/// Which of two stores stopped, and why.
#[derive(Clone, Copy, Debug, Drop, PartialEq, Eq)]
pub struct Failed {
    /// The store that stopped.
    pub side: Side,
    /// Why it stopped.
    pub stop: Stop,
}

/// What a call on one of two stores gave, with the side where it stopped.
pub fn sided<T: Drop>(side: Side, given: Result<T, Stop>) -> Result<T, Failed>
    ensures same { given ≡ stopped result }
    ensures side { IfErr result (λ f. f.side ≡ side) }
{
    match given {
        Ok(value) => Ok(value),
        Err(stop) => Err(Failed { side, stop }),
    }
}
