//! Generated scripts, and what they print of a sorted list of records.

use ppq_record::Pair;
use ppq_testkit::draw;
use std::alloc::Global;
use std::test::Fail;

// Puts the decimal digits of a number behind a text.
fn put_number(text: &mut Vec<u8>, alloc: Global, number: u64) -> Result<(), Fail> {
    let mut digits = Vec::new(alloc);
    let mut rest = number;
    for _ in 0..20 {
        if rest > 0 || digits.is_empty() {
            digits.push(b'0' + (rest % 10) as u8)?;
            rest /= 10;
        }
    }
    digits.reverse();
    text.extend_from_slice(&digits)?;
    Ok(())
}

// Puts a word and numbers behind a text, with a space between each.
fn put_words(text: &mut Vec<u8>, alloc: Global, word: &[u8], numbers: &[u64]) -> Result<(), Fail> {
    text.extend_from_slice(word)?;
    let mut is_first = word.is_empty();
    for number in numbers {
        if !is_first {
            text.push(b' ')?;
        }
        is_first = false;
        put_number(text, alloc, *number)?;
    }
    Ok(())
}

// Puts them, and ends the line.
pub(crate) fn put_line(
    text: &mut Vec<u8>,
    alloc: Global,
    word: &[u8],
    numbers: &[u64],
) -> Result<(), Fail> {
    put_words(text, alloc, word, numbers)?;
    text.push(b'\n')?;
    Ok(())
}

// A generated script, what it prints, and the records that it leaves.
#[derive(Drop)]
pub(crate) struct Case {
    pub alloc: Global,
    // The script.
    pub text: Vec<u8>,
    // What it prints.
    pub output: Vec<u8>,
    // The records, the smallest last.
    list: Vec<Pair>,
    // The greatest number of records after a command, with those that were popped in an open limit session.
    pub load: u64,
    // How many records were popped in the open limit session.
    popped: u64,
    // How many records were pushed, by any command.
    pub pushed: u64,
    // How many sessions were begun, of generated records too.
    pub begun: u64,
    // Whether a bulk session was begun.
    pub bulked: bool,
    // Whether a limit session was begun.
    pub limited: bool,
}

impl Case {
    fn new(alloc: Global) -> Case {
        Case {
            alloc,
            text: Vec::new(alloc),
            output: Vec::new(alloc),
            list: Vec::new(alloc),
            load: 0,
            popped: 0,
            pushed: 0,
            begun: 0,
            bulked: false,
            limited: false,
        }
    }

    fn command(&mut self, word: &[u8], numbers: &[u64]) -> Result<(), Fail> {
        put_line(&mut self.text, self.alloc, word, numbers)
    }

    // The same of a command that begins a session.
    fn begin(&mut self, word: &[u8], numbers: &[u64]) -> Result<(), Fail> {
        self.begun = self.begun.saturating_add(1);
        self.command(word, numbers)
    }

    fn print(&mut self, word: &[u8], numbers: &[u64]) -> Result<(), Fail> {
        put_line(&mut self.output, self.alloc, word, numbers)
    }

    fn print_record(&mut self, record: Option<Pair>) -> Result<(), Fail> {
        match record {
            Some(record) => self.print(b"", &[record.key, record.value]),
            None => self.print(b"empty", &[]),
        }
    }

    // `push K V`.
    fn push(&mut self, item: Pair) -> Result<(), Fail> {
        self.command(b"push", &[item.key, item.value])?;
        self.add(item)
    }

    // `gen SEED N`.
    fn generate(&mut self, seed: u64, count: u64) -> Result<(), Fail> {
        self.begin(b"gen", &[seed, count])?;
        let mut key = seed;
        for value in 0..count {
            draw(&mut key, 1);
            self.add(Pair { key, value })?;
        }
        Ok(())
    }

    // A bulk session with so many pushes, each by a pass below a number of workers.
    fn session(&mut self, seed: &mut u64, mood: Mood, count: u64) -> Result<(), Fail> {
        self.begin(b"bulk_begin", &[])?;
        self.bulked = true;
        for _ in 0..count {
            let item = record(seed, mood.keys);
            let pass = draw(seed, mood.workers);
            self.command(b"bulk_push", &[pass, item.key, item.value])?;
            self.add(item)?;
        }
        self.command(b"bulk_end", &[])
    }

    // Puts a record into the list, behind those that are not after it.
    fn add(&mut self, item: Pair) -> Result<(), Fail> {
        let mut place = 0usize;
        for other in self.list.as_slice() {
            if *other > item {
                place = place.saturating_add(1);
            }
        }
        let place = place.min(self.list.len());
        self.list.insert(place, item)?;
        self.pushed = self.pushed.saturating_add(1);
        let count = (self.list.len() as u64).saturating_add(self.popped);
        self.load = self.load.max(count);
        Ok(())
    }

    // A limit session with so many lines, each push by a pass below a number of workers.
    fn limit_session(&mut self, seed: &mut u64, mood: Mood, count: u64) -> Result<(), Fail> {
        let limit = record(seed, mood.keys);
        self.begin(b"limit_begin", &[limit.key, limit.value])?;
        self.limited = true;
        for _ in 0..count {
            match draw(seed, 4) {
                0 => self.limit_top(limit)?,
                1 => self.limit_pop(limit)?,
                _ => self.limit_push(seed, mood, limit)?,
            }
        }
        self.popped = 0;
        self.command(b"limit_end", &[])
    }

    // `limit_push I K V`, of a record that is not below the limit.
    fn limit_push(&mut self, seed: &mut u64, mood: Mood, limit: Pair) -> Result<(), Fail> {
        let item = record(seed, mood.keys).max(limit);
        let pass = draw(seed, mood.workers);
        self.command(b"limit_push", &[pass, item.key, item.value])?;
        self.add(item)
    }

    // `limit_top`.
    fn limit_top(&mut self, limit: Pair) -> Result<(), Fail> {
        self.command(b"limit_top", &[])?;
        if !self.is_below(&limit) {
            return self.print(b"limit", &[]);
        }
        let least = self.list.last().copied();
        self.print_record(least)
    }

    // `limit_pop`.
    fn limit_pop(&mut self, limit: Pair) -> Result<(), Fail> {
        self.command(b"limit_pop", &[])?;
        if !self.is_below(&limit) {
            return self.print(b"limit", &[]);
        }
        self.popped = self.popped.saturating_add(1);
        let least = self.list.pop();
        self.print_record(least)
    }

    // `pop`.
    fn pop(&mut self) -> Result<(), Fail> {
        self.command(b"pop", &[])?;
        let least = self.list.pop();
        self.print_record(least)
    }

    // `top`.
    fn top(&mut self) -> Result<(), Fail> {
        self.command(b"top", &[])?;
        let least = self.list.last().copied();
        self.print_record(least)
    }

    // `size`.
    fn size(&mut self) -> Result<(), Fail> {
        self.command(b"size", &[])?;
        let size = self.list.len() as u64;
        self.print(b"", &[size])
    }

    // `bulk_pop N`.
    fn bulk_pop(&mut self, count: u64) -> Result<(), Fail> {
        self.command(b"bulk_pop", &[count])?;
        for _ in 0..count {
            if let Some(least) = self.list.pop() {
                self.print_record(Some(least))?;
            }
        }
        Ok(())
    }

    // `drain N`.
    fn drain(&mut self, count: u64) -> Result<(), Fail> {
        self.command(b"drain", &[count])?;
        let mut drained = Vec::new(self.alloc);
        for _ in 0..count {
            if let Some(least) = self.list.pop() {
                drained.push(least)?;
            }
        }
        self.print_drained(&drained)
    }

    // How many these are, the first, the last, and the sum of the keys.
    fn print_drained(&mut self, drained: &[Pair]) -> Result<(), Fail> {
        let (Some(first), Some(last)) = (drained.first(), drained.last()) else {
            return self.print(b"count 0", &[]);
        };
        let mut sum = 0u64;
        for item in drained {
            sum = sum.wrapping_add(item.key);
        }
        let (text, alloc) = (&mut self.output, self.alloc);
        put_words(text, alloc, b"count", &[drained.len() as u64])?;
        put_words(text, alloc, b" first", &[first.key, first.value])?;
        put_words(text, alloc, b" last", &[last.key, last.value])?;
        put_line(text, alloc, b" sum", &[sum])
    }

    // Whether the smallest record is less than another.
    fn is_below(&self, limit: &Pair) -> bool {
        self.list.last().is_some_and(|least| least < limit)
    }

    // `bulk_pop_limit K V N`.
    fn bulk_pop_limit(&mut self, limit: Pair, count: u64) -> Result<(), Fail> {
        self.command(b"bulk_pop_limit", &[limit.key, limit.value, count])?;
        for _ in 0..count {
            if self.is_below(&limit) {
                let least = self.list.pop();
                self.print_record(least)?;
            }
        }
        if self.is_below(&limit) {
            self.print(b"more", &[])
        } else {
            self.print(b"all", &[])
        }
    }
}

// How a script is generated.
#[derive(Clone, Copy)]
struct Mood {
    // How many of a hundred commands are pushes.
    pushes: u64,
    // Keys are below it.
    keys: u64,
    // The greatest load.
    load: u64,
    // How many workers there are.
    workers: u64,
}

// A record with a key below a bound, of which many are equal; one of a hundred has the greatest key.
fn record(seed: &mut u64, keys: u64) -> Pair {
    let key = if draw(seed, 100) == 0 {
        u64::MAX
    } else {
        draw(seed, keys)
    };
    Pair {
        key,
        value: draw(seed, 3),
    }
}

// Adds a command that removes no record, or at most a few.
fn add_other(case: &mut Case, seed: &mut u64, keys: u64) -> Result<(), Fail> {
    match draw(seed, 9) {
        0 => case.top(),
        1 => case.size(),
        2 => case.bulk_pop(draw(seed, 6)),
        3 => case.bulk_pop_limit(record(seed, keys), draw(seed, 6)),
        4 => case.drain(draw(seed, 6)),
        _ => case.pop(),
    }
}

// Adds a command.
fn add_command(case: &mut Case, seed: &mut u64, mood: Mood) -> Result<(), Fail> {
    let is_full = case.list.len() as u64 >= mood.load;
    if draw(seed, 100) < mood.pushes && !is_full {
        let room = mood.load.saturating_sub(case.list.len() as u64);
        return match draw(seed, 8) {
            0 => case.generate(draw(seed, 1_000), draw(seed, 6).min(room)),
            1 => {
                let count = draw(seed, 30).min(room);
                case.session(seed, mood, count)
            }
            2 => {
                let count = draw(seed, 40).min(room);
                case.limit_session(seed, mood, count)
            }
            _ => case.push(record(seed, mood.keys)),
        };
    }
    add_other(case, seed, mood.keys)
}

// A script of so many commands, of which one in three ends with all that is left.
pub(crate) fn script(
    alloc: Global,
    seed: &mut u64,
    commands: u64,
    load: u64,
    workers: u32,
) -> Result<Case, Fail> {
    let mood = Mood {
        pushes: 30 + draw(seed, 70),
        keys: 1 + draw(seed, 2) * 1_000 + draw(seed, 30),
        load,
        workers: u64::from(workers),
    };
    let mut case = Case::new(alloc);
    for _ in 0..commands {
        add_command(&mut case, seed, mood)?;
    }
    if draw(seed, 3) == 0 {
        case.bulk_pop(load)?;
    }
    Ok(case)
}
