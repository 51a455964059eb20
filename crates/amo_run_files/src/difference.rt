//! Comparison of a jobs' file with an older copy.
ghost use Rattle.std.specs.Prelude.{◌≡◌, ◌-◌, ◌≤◌, IfSome, IfNone};
ghost use Rattle.amo_run_files.specs.Lines.{first_lines, BeginsWith};

/// Returns `None` if the file begins with the known bytes. Otherwise it returns the number, from 1,
/// of the first known line that isn't there as it was.
pub fn first_difference(known: &[u8], file: &[u8]) -> Option<usize>
    ensures none { IfNone result (BeginsWith known.now file.now) }
    ensures some { IfSome result (λ _. ¬ (BeginsWith known.now file.now)) }
    // The lines before it are there, with their ends, and with it they aren't.
    ensures first { IfSome result (λ number. (1 ≤ number) × BeginsWith (first_lines (number - 1) known.now) file.now
        × ¬ (BeginsWith (first_lines number known.now) file.now)) }
{
    let mut line = 1;
    for (i, b) in known.iter().enumerate() {
        if i >= file.len() || file[i] != *b {
            return Some(line);
        }
        if *b == b'\n' {
            line += 1;
        }
    }
    None
}
