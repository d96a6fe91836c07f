//! Answers that want memory.
ghost use Rattle.std.specs.Prelude.{◌≡◌};
ghost use Rattle.gd_answering.specs.Texts.{answer_text};
ghost use Rattle.gd_reply.specs.Replies.{made_text};
ghost use Rattle.gd_runs.specs.Explained.{memory_line};

use gd_answering::answer::Answer;
use gd_base::memory::Memory;
use gd_reply::reply::Failure;

/// The answer that there was no memory for a line or its reply.
pub(crate) fn no_memory(line: u64) -> Answer
    ensures { answer_text result ≡ memory_line line }
{
    Answer::Failed {
        failure: Failure::NoMemory,
        line,
    }
}

/// A line that was made as the reply to a line, or that there was no memory for it.
pub(crate) fn made(line: u64, made: Result<Vec<u8>, Memory>) -> Answer
    ensures { answer_text result ≡ made_text line made }
{
    match made {
        Ok(bytes) => Answer::Made(bytes),
        Err(_) => no_memory(line),
    }
}
