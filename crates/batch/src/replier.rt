// The replies to requests: what a run of their words gives on their files.
ghost use Rattle.std.specs.Prelude.{◌≡◌, IfOk};
ghost use Rattle.frames.specs.Replies.{reply_text};
ghost use Rattle.batch.specs.RequestReplies.{memory_reply};

use cmr_base::Memory;
use cmr_tools::Failure;
use frames::{GrowingSink, Reply, Request, RequestShelf, write_reply};
use serving::Replier;
use std::alloc::Global;
use std::thread::Threads;

/// The replies with what runs of `cmr` give, or that an allocation failed.
#[derive(Debug, Drop)]
pub struct CmrReplier;

impl Replier for CmrReplier {
    ghost use Rattle.batch.specs.CmrReplies.{cmr_rule};

    ghost rule = { cmr_rule };

    fn reply<R: Threads + Sync>(
        &self,
        rt: &R,
        alloc: Global,
        request: &Request<'_>,
    ) -> Result<Vec<u8>, Memory> {
        let mut shelf = RequestShelf::new(alloc, &request.files);
        let mut out = GrowingSink::new(alloc);
        let mut err = GrowingSink::new(alloc);
        let words = &request.words;
        let status = cmr_tools::run(rt, alloc, words, &mut shelf, &mut out, &mut err);
        if shelf.is_short() || out.is_short() || err.is_short() {
            return refusal(alloc);
        }
        let reply = Reply {
            status,
            output: out.content(),
            error: err.content(),
            files: shelf.written(),
        };
        match write_reply(alloc, &reply) {
            Ok(text) => Ok(text),
            Err(_) => refusal(alloc),
        }
    }
}

// The text of the reply that an allocation failed.
fn refusal(alloc: Global) -> Result<Vec<u8>, Memory>
    ensures { IfOk result (λ text. text.items ≡ reply_text memory_reply) }
{
    let reply = Reply {
        status: Failure::Memory.status(),
        output: b"",
        error: b"cmr: out of memory\n",
        files: &[],
    };
    write_reply(alloc, &reply)
}
