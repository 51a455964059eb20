//! The two ends of the lines: a place that they go to, and one that replies come from.
ghost use Rattle.std.specs.Prelude.{◌≡◌, ◌++◌, ◌∷◌, [], ℕ, List, option_map, IfOk, OnErr, IfSome, IsSome};
ghost use Rattle.amo_driver.specs.declared.model.Deed.TheVariants.{Fell};
ghost use Rattle.amo_driver.specs.Stage.{Stage};
ghost use Rattle.amo_driver.specs.Standing.{MayCall, Moves, Counts};
ghost use Rattle.amo_runner_protocol.specs.Lines.{deed_of};

use amo_driver::{Failed, Try};

/// A partner that gets lines. After a call has failed no other is made.
pub trait Wire {
    /// The process may be at this stage, by the lines and their answers. If nothing records them,
    /// as those of a process's own streams, it may be at any stage.
    ghost stands: { Self → Stage → Type 0 };
    /// It may have sent so many lines, those without a reply included.
    ghost has_said: { Self → ℕ → Type 0 };

    /// Sends the line of a try, as `text_of` returns it, and waits for the line in reply. Returns
    /// that line without its end, or `None` if nothing more comes, or a line that is cut.
    fn ask(&mut self, asked: Try) -> Result<Option<Vec<u8>>, Failed>
        requires { MayCall (stands self.old) asked }
        ensures heard { IfOk result (λ heard. Moves (stands self.old) (stands self.new) (deed_of asked (option_map (λ line. line.items) heard))) }
        ensures fails { OnErr result (Moves (stands self.old) (stands self.new) (Fell asked)) }
        ensures counts { Counts (has_said self.old) (has_said self.new) };
}

/// Returns the line that these bytes are, without its end. It returns `None` if the bytes don't end
/// with the end of a line, since the rest of the line is lost.
pub fn whole_line(said: Vec<u8>) -> Option<Vec<u8>>
    ensures whole { IfSome result (λ line. said.items ≡ line.items ++ 10 ∷ []) }
    ensures cut { (line : List ℕ) → said.items ≡ line ++ 10 ∷ [] → IsSome result }
{
    let mut line = said;
    match line.pop() {
        Some(b'\n') => Some(line),
        _ => None,
    }
}
