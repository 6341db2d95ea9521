//! What the crate's types hold once more, with memory of its own.
use crate::ask::Ask;
use crate::entry::{Entry, Plain, Reply, Request};
use crate::log::{AllocLog, ThreadLog};
use crate::record::RunRecord;
use bsan_ids::{Copied, NoMemory};

impl Copied for Request {
    fn copy(&self) -> Result<Request, NoMemory> {
        Ok(match self {
            Request::Make { size, place } => Request::Make {
                size: *size,
                place: *place,
            },
            Request::Load { at, ty, prov } => Request::Load {
                at: *at,
                ty: *ty,
                prov: *prov,
            },
            Request::Store {
                at,
                ty,
                value,
                carried,
                prov,
            } => Request::Store {
                at: *at,
                ty: *ty,
                value: *value,
                carried: *carried,
                prov: *prov,
            },
            Request::Modify {
                at,
                width,
                op,
                value,
                prov,
            } => Request::Modify {
                at: *at,
                width: *width,
                op: *op,
                value: *value,
                prov: *prov,
            },
            Request::CmpXchg {
                at,
                width,
                expected,
                value,
                prov,
            } => Request::CmpXchg {
                at: *at,
                width: *width,
                expected: *expected,
                value: *value,
                prov: *prov,
            },
            Request::CopyOut { at, len, prov } => Request::CopyOut {
                at: *at,
                len: *len,
                prov: *prov,
            },
            Request::CopyIn { at, piece, prov } => Request::CopyIn {
                at: *at,
                piece: piece.copy()?,
                prov: *prov,
            },
            Request::Retag {
                at,
                len,
                kind,
                guard,
                prov,
            } => Request::Retag {
                at: *at,
                len: *len,
                kind: *kind,
                guard: *guard,
                prov: *prov,
            },
            Request::EndProtector { tag } => Request::EndProtector { tag: *tag },
            Request::Free { at, stack, prov } => Request::Free {
                at: *at,
                stack: *stack,
                prov: *prov,
            },
            Request::Print { value } => Request::Print { value: *value },
            Request::Host {
                number,
                first,
                second,
            } => Request::Host {
                number: *number,
                first: *first,
                second: *second,
            },
            Request::Spawn { function } => Request::Spawn {
                function: *function,
            },
            Request::Join { child } => Request::Join { child: *child },
        })
    }
}

impl Copied for Plain {
    fn copy(&self) -> Result<Plain, NoMemory> {
        Ok(match self {
            Plain::Made(number) => Plain::Made(*number),
            Plain::Value(value) => Plain::Value(*value),
            Plain::Copied(piece) => Plain::Copied(piece.copy()?),
            Plain::Done => Plain::Done,
            Plain::Retagged { added } => Plain::Retagged { added: *added },
            Plain::Spawned(number) => Plain::Spawned(*number),
            Plain::Trapped(trap) => Plain::Trapped(*trap),
        })
    }
}

impl Copied for Reply {
    fn copy(&self) -> Result<Reply, NoMemory> {
        Ok(Reply {
            plain: self.plain.copy()?,
            carried: self.carried,
            verdict: self.verdict,
        })
    }
}

impl Copied for Entry {
    fn copy(&self) -> Result<Entry, NoMemory> {
        Ok(Entry {
            thread: self.thread,
            stamp: self.stamp,
            site: self.site,
            alloc: self.alloc,
            request: self.request.copy()?,
            reply: self.reply.copy()?,
        })
    }
}

impl Copied for Ask {
    fn copy(&self) -> Result<Ask, NoMemory> {
        Ok(match self {
            Ask::Turn => Ask::Turn,
            Ask::Make { size, place } => Ask::Make {
                size: *size,
                place: *place,
            },
            Ask::At { alloc, request } => Ask::At {
                alloc: *alloc,
                request: request.copy()?,
            },
            Ask::Print { value } => Ask::Print { value: *value },
            Ask::Host {
                number,
                first,
                second,
            } => Ask::Host {
                number: *number,
                first: *first,
                second: *second,
            },
            Ask::Spawn { function } => Ask::Spawn {
                function: *function,
            },
            Ask::Join { child } => Ask::Join { child: *child },
            Ask::Ended(end) => Ask::Ended(*end),
        })
    }
}

impl Copied for ThreadLog {
    fn copy(&self) -> Result<ThreadLog, NoMemory> {
        Ok(ThreadLog {
            number: self.number,
            parent: self.parent,
            entry_function: self.entry_function,
            entries: self.entries.copy()?,
            instructions: self.instructions,
            last: self.last,
            end: self.end,
        })
    }
}

impl Copied for AllocLog {
    fn copy(&self) -> Result<AllocLog, NoMemory> {
        Ok(AllocLog {
            number: self.number,
            entries: self.entries.copy()?,
        })
    }
}

impl Copied for RunRecord {
    fn copy(&self) -> Result<RunRecord, NoMemory> {
        Ok(RunRecord {
            threads: self.threads.copy()?,
            allocs: self.allocs.copy()?,
            words: self.words,
        })
    }
}
