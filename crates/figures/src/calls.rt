// The calls: each line's is made, and what it answers is written, with the bytes of the table or of the output after it.
use crate::answers::{self, Answer, Digits};
use crate::kinds::Kind;
use definition::{Refusal, Settings};
use lines::{values, words};
use std::io;

// What an output holds before a read.
const UNTOUCHED: u8 = 165;

// The settings in a line `table`.
pub fn settings(line: &[u8]) -> Settings {
    Settings {
        size: words::number_at(line, 1) as usize,
        multipart: words::is_at(line, 2, b"multipart"),
        counted: words::is_at(line, 3, b"counted"),
        keyed: words::is_at(line, 4, b"keyed"),
    }
}

// A line of a kind that the program takes, the table that its call is on, and where the answer is written.
#[derive(Drop)]
pub struct Call<'a, R> {
    pub rt: &'a R,
    pub line: &'a [u8],
    pub table: &'a mut [u8],
    pub settings: Settings,
}

impl<R: Print> Call<'_, R> {
    // Does what a line of this kind asks. A match, since a closure for each would be made and handed out.
    pub fn make(&mut self, kind: Kind) -> io::Result<()> {
        match kind {
            Kind::Insert => self.insert(),
            Kind::Replace => self.replace(),
            Kind::Remove => self.remove(),
            Kind::Change => self.change_count(),
            Kind::Table => {
                self.table.fill(0);
                Ok(())
            }
            Kind::Set => self.set(),
            Kind::Read => self.read(),
            Kind::ReadFixed => self.read_fixed(),
            Kind::FreeCount => self.free_count(),
            Kind::Bytes => self.show_bytes(),
            Kind::Value => self.show_value(),
            Kind::Comment => Ok(()),
        }
    }

    // ---- the words of the line

    fn number(&self, place: usize) -> u64 {
        words::number_at(self.line, place)
    }

    fn slot(&self) -> u64 {
        self.number(1)
    }

    // Where the form has a value, the line has one that the room holds.
    fn value<'b>(&self, place: usize, room: &'b mut [u8]) -> &'b [u8] {
        values::value_at(self.line, place, room).unwrap_or(&[])
    }

    // The key that a read has to find in its record.
    fn checked_key<'b>(&self, room: &'b mut [u8]) -> Option<&'b [u8]> {
        if words::is_at(self.line, 2, b"checked") {
            return Some(self.value(4, room));
        }
        None
    }

    // ---- the calls that write: insert and replace are two, since each has its own call and answer

    fn insert(&mut self) -> io::Result<()> {
        let mut key_room = [0; values::ROOM];
        let mut content_room = [0; values::ROOM];
        let key = self.value(2, &mut key_room);
        let content = self.value(4, &mut content_room);
        let mark = words::is_at(self.line, 5, b"compressed");
        let inserted = table::insert(self.table, self.settings, key, content, mark);
        self.print_written(inserted.map(Answer::Slot))
    }

    fn replace(&mut self) -> io::Result<()> {
        let mut key_room = [0; values::ROOM];
        let mut content_room = [0; values::ROOM];
        let slot = self.slot();
        let key = self.value(3, &mut key_room);
        let content = self.value(5, &mut content_room);
        let mark = words::is_at(self.line, 6, b"compressed");
        let replaced = table::replace(self.table, self.settings, slot, key, content, mark);
        self.print_written(replaced.map(|()| Answer::Accepted))
    }

    fn remove(&mut self) -> io::Result<()> {
        let slot = self.slot();
        let removed = table::remove(self.table, self.settings, slot);
        self.print_written(removed.map(|()| Answer::Accepted))
    }

    fn change_count(&mut self) -> io::Result<()> {
        let slot = self.slot();
        let step = words::step_at(self.line, 2);
        let changed = table::change_count(self.table, self.settings, slot, step);
        self.print_written(changed.map(Answer::Count))
    }

    // The answer of a call that writes, and the whole table after it.
    fn print_written(&self, answer: Result<Answer, Refusal>) -> io::Result<()> {
        answers::print(self.rt, answer)?;
        self.print_table(", table")
    }

    fn print_table(&self, name: &str) -> io::Result<()> {
        answers::print_bytes(self.rt, name, self.table)
    }

    fn set(&mut self) -> io::Result<()> {
        let place = self.number(1) as usize;
        match u8::try_from(self.number(2)) {
            Ok(byte) if place < self.table.len() => self.table[place] = byte,
            _ => return answers::print_unknown(self.rt),
        }
        self.print_table(": table")
    }

    // ---- the reads

    // The copying read into as much of an output as the line asks for, and the whole of that afterwards.
    fn read(&self) -> io::Result<()> {
        let mut key_room = [0; values::ROOM];
        let mut output_room = [UNTOUCHED; values::ROOM];
        let Some(output) = output_room.get_mut(..self.number(6) as usize) else {
            return answers::print_unknown(self.rt);
        };
        let key = self.checked_key(&mut key_room);
        let found = table::read(self.table, self.settings, self.slot(), key, output);
        answers::print(self.rt, found.map(Answer::Content))?;
        answers::print_bytes(self.rt, ", output", output)
    }

    // What the fixed read's companion tells, and the part of the table that the fixed read hands back.
    fn read_fixed(&self) -> io::Result<()> {
        let mut room = [0; values::ROOM];
        let key = self.checked_key(&mut room);
        let found = table::find_fixed(self.table, self.settings, self.slot(), key);
        answers::print(self.rt, found.map(Answer::Content))?;
        let part = table::read_fixed(self.table, self.settings, self.slot(), key);
        answers::print_bytes(self.rt, ", part", part)
    }

    fn free_count(&self) -> io::Result<()> {
        let free = table::free_count(self.table, self.settings);
        answers::print(self.rt, free.map(Answer::Free))
    }

    // As many of these bytes as the table has.
    fn show_bytes(&self) -> io::Result<()> {
        let from = self.number(1) as usize;
        let many = self.number(2) as usize;
        print!(self.rt;
            ":{}",
            Digits(values::front(values::back(self.table, from), many))
        )
    }

    fn show_value(&self) -> io::Result<()> {
        let mut room = [0; values::ROOM];
        answers::print_bytes(self.rt, ":", self.value(1, &mut room))
    }
}
