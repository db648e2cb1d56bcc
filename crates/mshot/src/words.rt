ghost use Rattle.std.specs.Prelude.{◌≡◌, ◌↔◌, IsTrue, string_bytes};
ghost use Rattle.mshot.specs.Words.{AreLogRun, AreRun, AreRunWords};

/// Whether the words are `run`, or `log run`.
pub fn are_run_words(words: &[String]) -> bool
    ensures { IsTrue result ↔ AreRunWords words.now }
{
    are_run(words) || are_log_run(words)
}

fn are_run(words: &[String]) -> bool
    ensures { IsTrue result ↔ AreRun words.now }
{
    match words {
        [word] => word.as_str() == "run",
        _ => false,
    }
}

fn are_log_run(words: &[String]) -> bool
    ensures { IsTrue result ↔ AreLogRun words.now }
{
    match words {
        [first, second] => {
            let log = is_text(first, "log");
            let run = is_text(second, "run");
            log & run
        }
        _ => false,
    }
}

fn is_text(word: &String, text: &str) -> bool
    ensures { IsTrue result ↔ (string_bytes word.now ≡ text.now) }
{
    word.as_str() == text
}
