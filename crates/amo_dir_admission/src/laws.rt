//! The theorems about the clauses of `DoorHost`, and what they come to for a door's calls. Nothing
//! here runs: each function's contract is a law.
ghost use Rattle.std.specs.Prelude.{◌≡◌, List, [], ◌∷◌, ◌++◌, true};
ghost use Rattle.amo_dir_admission.specs.declared.model.Asked.{Asked};
ghost use Rattle.amo_dir_admission.specs.Calls.{Request, Call, request_of};
ghost use Rattle.amo_dir_admission.specs.Files.{first_files};
ghost use Rattle.amo_dir_admission.specs.Phase.{Phase, Begins, Done};
ghost use Rattle.amo_dir_admission.specs.Protocol.{phase_after_all, AreAllowed, MayCall, Moves, Stands};
ghost use Rattle.amo_dir_admission.specs.Rules.{Outside, Passes, SeesNothing, entry_after_all, no_facts, AreChecked, KeepRules, MakeNothing};

/// States that a process that records its calls is in the phase after them: each call more that is
/// allowed moves it on, as `DoorHost` ensures of each method.
pub fn records_tell_where_it_stands()
    ensures { (first : Phase) (cs : List Call) (c : Call) → Moves (Stands first cs) (Stands first (cs ++ c ∷ [])) c }
{}

/// States that if a call may be made next, each of the recorded calls and that one are allowed by
/// the phase before it. So this holds if the process is killed in the call, and if the call comes
/// about and its result is lost.
pub fn calls_are_allowed()
    ensures { (first : Phase) (cs : List Call) (c : Call) → MayCall (Stands first cs) (request_of c) → AreAllowed first (cs ++ c ∷ []) }
{}

/// States that a door to which the id of a run is named makes nothing, replaces nothing, and
/// removes nothing, if each of its calls is allowed.
pub fn a_named_run_is_never_made()
    ensures { (asked : Asked) (cs : List Call) → asked.is_named ≡ true → AreAllowed (Begins asked) cs → MakeNothing cs }
{}

/// States that a door makes a run's files in order, if each of its calls is allowed. In a folder
/// that is there, files other than `lock.round` are made only under the lock of the round. Before
/// that, the door has found under the lock neither an id nor a refused file there. It replaces a
/// file only if that has no byte. The id comes after `lock.round`, the answers and all journals,
/// and after a sync. A folder that was made under another name is renamed once all of them and the
/// id are in it, and after a sync.
pub fn files_are_made_in_order()
    ensures { (asked : Asked) (cs : List Call) → AreAllowed (Begins asked) cs → KeepRules no_facts cs }
{}

/// States that a door makes nothing before it has checked what it must, if each of its calls is
/// allowed. It makes a folder only after it has checked the file system of the folder above and
/// the list. It makes a file in a folder that is there only after five checks. The folder is this
/// user's, its file system is taken, and its version fits. It has no file by which no new run can
/// be there, and the list can be a run's.
pub fn nothing_is_made_before_it_is_checked()
    ensures { (asked : Asked) (cs : List Call) → AreAllowed (Begins asked) cs → AreChecked SeesNothing cs }
{}

/// States that a door that succeeds has entered the folder, if each of its calls is allowed. Its
/// last calls show a checked folder with an id. Then they show that the run was not given up, and
/// each file that was made with the id. Then the folder above was synced, and last the list was
/// checked.
pub fn a_door_that_succeeds_has_entered()
    ensures { (asked : Asked) (cs : List Call) → AreAllowed (Begins asked) cs → phase_after_all (Begins asked) cs ≡ Done → entry_after_all SeesNothing Outside cs ≡ Passes first_files }
{}
