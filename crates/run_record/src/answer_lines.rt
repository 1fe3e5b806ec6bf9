//! The line of a strong text that says an answer, and its digest.
ghost use Rattle.std.specs.Prelude.{◌≡◌, ◌++◌, IfOk, codes};
ghost use Rattle.hex.specs.Hex.{encode_lower};
ghost use Rattle.prints.specs.Strong.{answer_line, line_of};
ghost use Rattle.run_record.specs.Digests.{digest_of_line};

use bx_digest::{Digest, digest_of};
use observed::Answer;
use prints::append_digest;
use std::alloc::{AllocError, Global};

fn digest_line(alloc: Global, word: &[u8], digest: &Digest) -> Result<Vec<u8>, AllocError>
    ensures { IfOk result (λ line. line.items ≡ (word.now ++ encode_lower digest.now) ++ codes "\n") }
{
    let mut line = Vec::from_slice(alloc, word)?;
    append_digest(alloc, &mut line, digest, b'\n')?;
    Ok(line)
}

// The line that says an answer.
fn line(alloc: Global, answer: &Answer) -> Result<Vec<u8>, AllocError>
    ensures { IfOk result (λ line. line.items ≡ answer_line (line_of answer.now)) }
{
    match answer {
        Answer::Absent => Vec::from_slice(alloc, b"absent\n"),
        Answer::Content(bytes) => digest_line(alloc, b"content ", &bytes.digest()),
        Answer::File => Vec::from_slice(alloc, b"file\n"),
        Answer::Directory => Vec::from_slice(alloc, b"directory\n"),
        Answer::Names(names) => digest_line(alloc, b"names ", &names.digest()),
        Answer::Denied => Vec::from_slice(alloc, b"denied\n"),
    }
}

/// The digest of the line of a strong text that says an answer.
pub fn line_digest(alloc: Global, answer: &Answer) -> Result<Digest, AllocError>
    ensures { IfOk result (λ digest. digest ≡ digest_of_line answer.now) }
{
    let line = line(alloc, answer)?;
    Ok(digest_of(line.as_slice()))
}
