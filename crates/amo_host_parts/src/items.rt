//! The files of logs.
ghost use Rattle.std.specs.Prelude.{◌≡◌, ℕ};
ghost use Rattle.amo_host.specs.declared.model.LogFile.TheVariants.{Answers, Journal};
ghost use Rattle.amo_run_faults.specs.declared.layout.Item.TheVariants.{Answers as AnswersFile, Journal as JournalFile};

use amo_host::LogFile;
use amo_run_faults::Item;

/// Returns the file that this log is.
pub fn item_of_log(log: LogFile) -> Item
    ensures answers { log ≡ Answers → result ≡ AnswersFile }
    ensures journal { (worker : ℕ) → log ≡ Journal worker → result ≡ JournalFile worker }
{
    match log {
        LogFile::Answers => Item::Answers,
        LogFile::Journal(worker) => Item::Journal(worker),
    }
}
