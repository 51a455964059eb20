//! The stages of a stepped process.
ghost use Rattle.std.specs.Prelude.{◌≡◌, ◌+◌, ◌++◌, ◌∷◌, [], ℕ, Bool, List, Some};
ghost use Rattle.std.specs.Vec.{vec_capacity};
ghost use Rattle.amo_kk.specs.Choice.{first_record};
ghost use Rattle.amo_process.specs.declared.standing.Standing.TheVariants.{Going};
ghost use Rattle.amo_process.specs.Heard.{standing_of};
ghost use Rattle.amo_process.specs.Stepped.{own_after, standing_after};
ghost use Rattle.amo_process.specs.Stage.{standing_in_stage, IsLoading, StageFits};

use crate::standing::hear;
use amo_kk::{Local, NoSuchWords};
use amo_params::Givens;

/// `Stage`: how far a process has come.
#[derive(Drop)]
pub(crate) enum Stage {
    /// It loads its own registers, and the machine hasn't begun.
    Loading(Local),
    /// The machine goes on. The flag is true if it has made no access since it began.
    Stepping(Local, bool),
    /// It was given an impossible value.
    Refused,
}

impl Stage {
    /// Returns the stage after one more value, which is kept if it is that of an own register.
    pub(crate) fn after(self, givens: Givens, p: u32, own: &mut Vec<u64>, v: u64) -> Stage
        requires fits { StageFits givens p own.old.items self }
        requires room { vec_capacity own.old ≡ givens.jobs + 3 }
        ensures own { own.new.items ≡ own_after v own.old.items (standing_in_stage givens p own.old.items self) }
        ensures room { vec_capacity own.new ≡ givens.jobs + 3 }
        ensures stands { standing_in_stage givens p own.new.items result
            ≡ standing_after givens p v own.new.items (standing_in_stage givens p own.old.items self) }
        ensures fits { StageFits givens p own.new.items result }
    {
        match self {
            Stage::Loading(local) => {
                let stage = loaded(givens, p, local, own, v);
                own.push_reserved(v);
                stage
            }
            Stage::Stepping(local, _) => stepped(givens, p, local, v),
            Stage::Refused => Stage::Refused,
        }
    }
}

/// Returns the stage after the own register with value v, if these were loaded before it.
fn loaded(givens: Givens, p: u32, local: Local, own: &[u64], v: u64) -> Stage
    requires new { local ≡ record { givens = givens; number = p; state = first_record givens p } }
    requires loading { IsLoading givens own.now }
    ensures stands { standing_in_stage givens p (own.now ++ v ∷ []) result ≡ standing_of givens p (own.now ++ v ∷ []) }
    ensures fits { StageFits givens p (own.now ++ v ∷ []) result }
{
    let [announced, counted, row @ ..] = own else {
        return Stage::Loading(local);
    };
    if v != 0 {
        if row.len() >= givens.jobs as usize {
            return Stage::Refused;
        }
        return Stage::Loading(local);
    }
    match local.again(*announced, *counted, row) {
        Ok(local) => Stage::Stepping(local, true),
        Err(NoSuchWords) => Stage::Refused,
    }
}

/// Returns the stage after the machine's next access, which gave v.
fn stepped(givens: Givens, p: u32, mut local: Local, v: u64) -> Stage
    requires givens { local.givens ≡ givens }
    requires number { local.number ≡ p }
    ensures stands { (own : List ℕ) (fresh : Bool) → standing_in_stage givens p own result ≡ standing_after givens p v own (Some (Going local fresh)) }
    ensures fits { (own : List ℕ) → StageFits givens p own result }
{
    if hear(&mut local, v) {
        Stage::Stepping(local, false)
    } else {
        Stage::Refused
    }
}
