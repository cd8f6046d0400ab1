//! Requests, and what they are answered by a sorted list of records.

use ppq_budget::Sizes;
use ppq_record::Pair;
use ppq_testkit::draw;
use std::alloc::Global;
use std::test::Fail;

// Puts a number that is no more than the bytes of a request behind others, in four bytes.
fn put_count(into: &mut Vec<u8>, count: usize) -> Result<(), Fail> {
    let count = count.min(4_194_304) as u32;
    into.extend_from_slice(&count.to_be_bytes())?;
    Ok(())
}

// Puts a frame of these bytes behind others.
pub(crate) fn put_frame(into: &mut Vec<u8>, bytes: &[u8]) -> Result<(), Fail> {
    put_count(into, bytes.len())?;
    into.extend_from_slice(bytes)?;
    Ok(())
}

// Puts a number behind bytes, in eight.
fn put_number(into: &mut Vec<u8>, number: u64) -> Result<(), Fail> {
    into.extend_from_slice(&number.to_be_bytes())?;
    Ok(())
}

// Puts the bytes of a record behind others.
fn put_record(into: &mut Vec<u8>, item: Pair) -> Result<(), Fail> {
    put_number(into, item.key)?;
    put_number(into, item.value)
}

// Some requests, their answers, and the records that are left.
#[derive(Drop)]
pub(crate) struct Case {
    pub alloc: Global,
    // The frames of the requests.
    pub input: Vec<u8>,
    // The answers, from that of the first frame on.
    pub output: Vec<u8>,
    // How many bytes of the input are in front of each request, and of the output are those of all answers in front of it and
    // of the first frame's.
    pub ends: Vec<(usize, usize)>,
    // The greatest number of records.
    pub load: u64,
    // The operations of the request that is being written.
    request: Vec<u8>,
    // The records, the smallest last.
    list: Vec<Pair>,
}

impl Case {
    // The first frame was answered, and there is no request.
    pub(crate) fn new(alloc: Global) -> Result<Case, Fail> {
        let mut case = Case {
            alloc,
            input: Vec::new(alloc),
            output: Vec::new(alloc),
            ends: Vec::new(alloc),
            load: 0,
            request: Vec::new(alloc),
            list: Vec::new(alloc),
        };
        case.put_size()?;
        Ok(case)
    }

    // How many records there are.
    pub(crate) fn len(&self) -> u64 {
        self.list.len() as u64
    }

    // Answers by the number of records, and ends the request.
    fn put_size(&mut self) -> Result<(), Fail> {
        let size = (self.list.len() as u64).to_be_bytes();
        put_frame(&mut self.output, &size)?;
        self.ends.push((self.input.len(), self.output.len()))?;
        Ok(())
    }

    // Ends the request.
    pub(crate) fn send(&mut self) -> Result<(), Fail> {
        put_frame(&mut self.input, &self.request)?;
        self.request.clear();
        self.put_size()
    }

    // Puts a record into the list, in front of those that are not before it.
    fn add(&mut self, item: Pair) -> Result<(), Fail> {
        let mut place = 0usize;
        for other in self.list.as_slice() {
            if *other > item {
                place = place.saturating_add(1);
            }
        }
        let place = place.min(self.list.len());
        self.list.insert(place, item)?;
        self.load = self.load.max(self.list.len() as u64);
        Ok(())
    }

    // Takes the smallest record off the list and answers by it; says whether there was one.
    fn take(&mut self) -> Result<bool, Fail> {
        match self.list.pop() {
            None => Ok(false),
            Some(least) => {
                self.put_answer(least)?;
                Ok(true)
            }
        }
    }

    // Answers by a record.
    fn put_answer(&mut self, item: Pair) -> Result<(), Fail> {
        let mut bytes = Vec::new(self.alloc);
        put_record(&mut bytes, item)?;
        put_frame(&mut self.output, &bytes)
    }

    // `+`.
    pub(crate) fn push(&mut self, item: Pair) -> Result<(), Fail> {
        self.request.push(b'+')?;
        put_record(&mut self.request, item)?;
        self.add(item)
    }

    // `P`.
    pub(crate) fn push_many(&mut self, items: &[Pair]) -> Result<(), Fail> {
        self.request.push(b'P')?;
        put_count(&mut self.request, items.len())?;
        for item in items {
            put_record(&mut self.request, *item)?;
            self.add(*item)?;
        }
        Ok(())
    }

    // `p`.
    pub(crate) fn pop(&mut self) -> Result<(), Fail> {
        self.request.push(b'p')?;
        if self.take()? {
            return Ok(());
        }
        put_frame(&mut self.output, b"e")
    }

    // `t`.
    pub(crate) fn top(&mut self) -> Result<(), Fail> {
        self.request.push(b't')?;
        match self.list.last().copied() {
            None => put_frame(&mut self.output, b"e"),
            Some(least) => self.put_answer(least),
        }
    }

    // `n`.
    pub(crate) fn bulk_pop(&mut self, count: u64) -> Result<(), Fail> {
        self.request.push(b'n')?;
        put_number(&mut self.request, count)?;
        for _ in 0..count.min(self.list.len() as u64) {
            self.take()?;
        }
        Ok(())
    }

    // Whether the smallest record is before another.
    fn is_below(&self, limit: &Pair) -> bool {
        self.list.last().is_some_and(|least| least < limit)
    }

    // `b`.
    pub(crate) fn bulk_pop_limit(&mut self, limit: Pair, count: u64) -> Result<(), Fail> {
        self.request.push(b'b')?;
        put_record(&mut self.request, limit)?;
        put_number(&mut self.request, count)?;
        for _ in 0..count.min(self.list.len() as u64) {
            if self.is_below(&limit) {
                self.take()?;
            }
        }
        if self.is_below(&limit) {
            put_frame(&mut self.output, b"m")
        } else {
            put_frame(&mut self.output, b"a")
        }
    }
}

// The sizes of a queue for such a load, whose budget is its fixed part: so a record that the heaps have no room for is written.
pub(crate) fn tight(workers: u32, block: u32, load: u64) -> Option<Sizes> {
    let filled = load.div_ceil(u64::from(block.max(1)));
    let blocks = filled
        .saturating_mul(2)
        .saturating_add(u64::from(workers).saturating_mul(4))
        .saturating_add(72);
    let buffers = u64::from(workers).saturating_mul(7).saturating_add(72);
    let budget = buffers
        .saturating_mul(u64::from(block))
        .saturating_add(blocks);
    Sizes::new(workers, block, 1, budget, blocks.min(65_536) as u32)
}

// A record with a key below a bound, of which many are equal; one of a hundred has the greatest key.
pub(crate) fn record(seed: &mut u64, keys: u64) -> Pair {
    let key = if draw(seed, 100) == 0 {
        u64::MAX
    } else {
        draw(seed, keys)
    };
    Pair {
        key,
        value: draw(seed, 3),
    }
}
