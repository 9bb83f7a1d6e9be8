//! Rows that full lanes of a queue drop: that it begins is said, and when it ends, how many they were.

ghost use Rattle.std.specs.Prelude.{◌≡◌};
ghost use Rattle.dnp_notices.specs.Dropping as spec;

/// What a queue for a centre says of the rows that its full lanes dropped.
#[derive(Clone, Copy, Debug, PartialEq, Eq)]
pub struct Drops {
    /// Whether a lane has dropped rows, and one is full still.
    pub is_full: bool,
    /// How many rows its lanes have dropped since they were made.
    pub lost: u64,
}

/// Whether rows are being dropped.
#[derive(Clone, Copy, Debug, PartialEq, Eq)]
pub enum Dropping {
    /// None is, and so many were dropped before.
    Calm(u64),
    /// They are, since so many were dropped before.
    Since(u64),
}

/// What is said of rows that are dropped.
#[derive(Clone, Copy, Debug, PartialEq, Eq)]
pub enum DropNotice {
    /// It has begun, and these are the first.
    Begins(u64),
    /// It has ended, and they were so many.
    Ends(u64),
}

impl Dropping {
    /// Whether rows are being dropped once the queue says this.
    pub fn after(self, drops: Drops) -> Dropping
        ensures { result ≡ spec.after self drops }
    {
        match self {
            Dropping::Calm(lost) if lost < drops.lost && drops.is_full => Dropping::Since(lost),
            Dropping::Since(lost) if drops.is_full => Dropping::Since(lost),
            _ => Dropping::Calm(drops.lost),
        }
    }

    /// What is said where the queue says this: that rows are dropped, as the first of them are, and how many they were once no lane is
    /// full any more.
    pub fn notice(self, drops: Drops) -> Option<DropNotice>
        ensures { result ≡ spec.notice self drops }
    {
        match self {
            Dropping::Calm(lost) if lost < drops.lost => {
                let rows = drops.lost - lost;
                Some(if drops.is_full {
                    DropNotice::Begins(rows)
                } else {
                    DropNotice::Ends(rows)
                })
            }
            Dropping::Since(lost) if !drops.is_full => {
                Some(DropNotice::Ends(drops.lost.saturating_sub(lost)))
            }
            _ => None,
        }
    }
}
