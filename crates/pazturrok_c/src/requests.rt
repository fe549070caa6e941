// Messages with numbers and questions that are handed over in one, and the answers to them.
ghost use Rattle.std.specs.Prelude.{◌≡◌, IfOk, map};
ghost use Rattle.std.specs.List.{flat_map};
ghost use Rattle.pazturrok_c.specs.Requests.{bytes_of_answer, request_in, requests_in};

use crate::done::RequestHead;
use crate::many::tell;
use messages::{Request, RequestAnswer};
use std::alloc::{AllocError, Global};

/// The requests whose texts end at these places. It fails only for want of memory.
pub(crate) fn requests_of<'a>(
    alloc: Global,
    bytes: &'a [u8],
    heads: &[RequestHead],
) -> Result<Vec<Request<'a>>, AllocError>
    ensures { IfOk result (λ requests. map request_in requests.items ≡ requests_in 0 bytes.now heads.now) }
{
    let mut requests = Vec::with_capacity(alloc, heads.len())?;
    let mut rest = bytes;
    let mut start = 0u64;
    for head in heads {
        let length = head.end.saturating_sub(start).min(rest.len() as u64) as usize;
        let (text, after) = rest.split_at(length);
        let number = if head.is_question {
            None
        } else {
            Some(head.number)
        };
        requests.push(Request { number, text })?;
        rest = after;
        start = head.end;
    }
    Ok(requests)
}

/// What is told of these answers, one after the other. It fails only for want of memory.
pub(crate) fn told_of(alloc: Global, answers: &[RequestAnswer]) -> Result<Vec<u8>, AllocError>
    ensures { IfOk result (λ bytes. bytes.items ≡ flat_map bytes_of_answer answers.now) }
{
    let mut bytes = Vec::new(alloc);
    for answer in answers {
        tell(&mut bytes, answer.wrote as u16, &answer.text)?;
    }
    Ok(bytes)
}
