//! The theorems on the files of a round. Nothing here runs: each function's contract is a theorem.
ghost use Rattle.std.specs.Prelude.{◌≡◌, ◌≢◌, ◌<◌, ◌≤◌, ◌+◌, ◌-◌, ◌++◌, ℕ, Bool, true, false, List, None, Some, length, take, Contains, All};
ghost use Rattle.std.specs.List.{AllByRecursion};
ghost use Rattle.amo_kk.specs.Words.{words_of};
ghost use Rattle.amo_kk.specs.declared.model.Process.{Process as Worker};
ghost use Rattle.amo_journal.specs.Logs.{checksums_from};
ghost use Rattle.amo_run_log.specs.Texts.{ended};
ghost use Rattle.amo_run_files.specs.Records.{RecordView, IsRecord};
ghost use Rattle.amo_run_files.specs.Counted.{CountView, checksum_at, count_of, is_kept, extent_of_count, count_in};
ghost use Rattle.amo_run_files.specs.RoundFiles.{RoundFileView, IsRoundFile, text_of_round_file, round_file_in};
ghost use Rattle.amo_run_files.specs.Rounds.{seat_of};
ghost use Rattle.amo_run_files.specs.declared.seats.RoundParams.{RoundParams as GivensView};
ghost use Rattle.amo_run_files.specs.Heads.{head_of};
ghost use Rattle.amo_run_files.specs.Lines.{lines_in, remainder_in, first_lines, BeginsWith};
ghost use Rattle.amo_run_files.specs.Jobs.{IsLine, AreJobs};
ghost use Rattle.amo_run_files.specs.Refusals.{IsTaken, why_not};
ghost use Rattle.amo_run_files.specs.Words.{offset_of, word_count, words_len};

/// States that a file is its lines, each with a line feed, and then the bytes after them. Neither
/// the lines nor these bytes have a line feed, and nothing else is a file's lines.
pub fn a_file_is_its_lines()
    ensures whole { (file : List ℕ) → ended (lines_in file) ++ remainder_in file ≡ file }
    ensures lines { (file : List ℕ) → AllByRecursion (AllByRecursion (λ b. b ≢ 10)) (lines_in file) }
    ensures rest { (file : List ℕ) → AllByRecursion (λ b. b ≢ 10) (remainder_in file) }
    ensures only { (lines : List (List ℕ)) (rest : List ℕ) → AllByRecursion (AllByRecursion (λ b. b ≢ 10)) lines → AllByRecursion (λ b. b ≢ 10) rest
        → (lines_in (ended lines ++ rest) ≡ lines) × (remainder_in (ended lines ++ rest) ≡ rest) }
{}

/// States that the first lines of a file are lines with their ends, up to all of them, and then the
/// whole file.
pub fn what_first_lines_are()
    ensures ended { (count : ℕ) (file : List ℕ) → count ≤ length (lines_in file) → first_lines count file ≡ ended (take count (lines_in file)) }
    ensures whole { (count : ℕ) (file : List ℕ) → length (lines_in file) < count → first_lines count file ≡ file }
{}

/// States that a line may follow others exactly if it is text of 1 to 100,000 bytes, without NUL
/// and carriage return, and equal to none of the others.
pub fn what_may_stand()
    ensures is { (before : List (List ℕ)) (line : List ℕ) → why_not before line ≡ None → IsLine line × ¬ (Contains before line) }
    ensures only { (before : List (List ℕ)) (line : List ℕ) → IsLine line → ¬ (Contains before line) → why_not before line ≡ None }
{}

/// States that the copy of the jobs that a run keeps is read back as these jobs.
pub fn jobs_are_read_back()
    ensures { (jobs : List (List ℕ)) (cut : Bool) → AreJobs jobs → IsTaken (ended jobs) cut × (lines_in (ended jobs) ≡ jobs) }
{}

/// States that if a file begins with the known bytes, the known lines keep their numbers.
pub fn lines_keep_their_numbers()
    ensures { (known file : List ℕ) → BeginsWith known file → take (length (lines_in known)) (lines_in file) ≡ lines_in known }
{}

/// States that a head is that of one round alone: two records with the same head agree in all that
/// the words rest on.
pub fn a_head_is_of_one_round()
    ensures { (one other : RecordView) (head : List ℕ) → IsRecord one → IsRecord other → head_of one ≡ Some head → head_of other ≡ Some head
        → (one.round ≡ other.round) × (one.boot ≡ other.boot) × (one.givens ≡ other.givens) }
{}

/// States that the words are as many as a round's workers need, whose rows have one entry more than
/// there are jobs. They stand side by side up to the end of the file.
pub fn words_fill_their_file()
    ensures many { (givens : GivensView) (workers : List Worker) → length workers ≡ givens.workers → All (λ worker. length worker.row ≡ givens.jobs + 1) workers
        → length (words_of workers) ≡ word_count givens }
    ensures side_by_side { (word : ℕ) → offset_of (word + 1) ≡ offset_of word + 8 }
    ensures within { (givens : GivensView) (word : ℕ) → word < word_count givens → offset_of word + 8 ≤ words_len givens }
{}

/// States that in a round no two workers act as one number. Each number, up to those that share the
/// round, is some worker's. The worker that began acts as 1.
pub fn who_has_which_seat()
    ensures one_each { (one other first workers shared seat : ℕ) → first ≤ workers
        → seat_of one first workers shared ≡ Some seat → seat_of other first workers shared ≡ Some seat → one ≡ other }
    ensures in_range { (worker first workers shared seat : ℕ) → first ≤ workers
        → seat_of worker first workers shared ≡ Some seat → (1 ≤ seat) × (seat ≤ shared) × (worker ≤ workers) }
    ensures first { (first workers shared : ℕ) → 1 ≤ first → first ≤ workers → 1 ≤ shared → seat_of first first workers shared ≡ Some 1 }
    ensures taken { (first workers shared seat : ℕ) → 1 ≤ first → first ≤ workers → shared ≤ workers → 1 ≤ seat → seat ≤ shared
        → (worker : ℕ) × (seat_of worker first workers shared ≡ Some seat) }
{}

/// States that each file of a round is read back as itself, and that a text that is read was
/// printed so.
pub fn round_files_are_read_back()
    ensures back { (first : List ℕ) (f : RoundFileView) → IsRoundFile f → round_file_in first (text_of_round_file first f) ≡ Some f }
    ensures printed { (first file : List ℕ) (f : RoundFileView) → round_file_in first file ≡ Some f → IsRoundFile f × (text_of_round_file first f ≡ file) }
{}

/// States that a journal that lost its last append in a crash, and got others after that, keeps its
/// count. So no journal is refused that lost only its last append.
pub fn healthy_journals_are_kept()
    ensures { (first : List ℕ) (all more : List (List ℕ)) → is_kept (count_of first (checksums_from first all)) first (checksums_from first (take (length all - 1) all ++ more)) ≡ true }
{}

/// States that a journal keeps a count if it has at least so many appends, and has that checksum
/// after them. A journal of fewer appends doesn't keep it, and neither does one with another
/// checksum there.
pub fn what_keeps_a_count()
    ensures kept { (c : CountView) (first : List ℕ) (checksums : List (List ℕ)) → c.appends ≤ length checksums → checksum_at first checksums c.appends ≡ c.checksum → is_kept c first checksums ≡ true }
    ensures fewer { (c : CountView) (first : List ℕ) (checksums : List (List ℕ)) → length checksums < c.appends → is_kept c first checksums ≡ false }
    ensures differs { (c : CountView) (first : List ℕ) (checksums : List (List ℕ)) → checksum_at first checksums c.appends ≢ c.checksum → is_kept c first checksums ≡ false }
{}

/// States that the count in the extent of a count is that count.
pub fn counts_are_read_back()
    ensures { (name : List ℕ) (c : CountView) → length c.checksum ≡ 8 → count_in (extent_of_count name c) ≡ Some c }
{}
