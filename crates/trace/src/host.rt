// The two ends that a script drives, and what is kept beside them from record to record.
use crate::command::{Command, Kept};
use crate::record::{BadScript, Record};
use crate::{command, record};
use calling::Calling;
use lines::buffers::Buffers;
use lines::places::{Lent, SECOND, Size};
use lines::{answer, places};
use serving::Served;

#[derive(Drop)]
pub struct Host {
    server: Served,
    client: Calling,
    buffers: Buffers,
}

impl Host {
    pub fn new() -> Host {
        Host {
            server: Served::new(),
            client: Calling::new(),
            buffers: Buffers::new(),
        }
    }

    // Reads a payload to its place: the table, the image and the slice each have their own.
    fn store(&mut self, r: Record) -> Result<(), BadScript> {
        match r.letter {
            b'T' => record::payload(&mut self.buffers.still, SECOND, r.size),
            b'I' => record::payload(&mut self.buffers.lent, 0, r.size),
            b'B' => record::payload(&mut self.buffers.lent, SECOND, r.size),
            _ => record::payload(&mut self.buffers.still, 0, r.size),
        }
    }

    // Reads a record, and says what it asks for. None where the script has ended.
    fn next(&mut self) -> Result<Option<Command>, BadScript> {
        let Some(r) = record::next()? else {
            return Ok(None);
        };
        self.store(r)?;
        Ok(Some(command::read(r, &self.buffers.still)?))
    }

    fn change(&mut self, k: Kept, n: Size) {
        match k {
            Kept::Table => self.buffers.sizes.table = n,
            Kept::Image => self.buffers.sizes.image = n,
            Kept::Slice => self.buffers.sizes.slice = n,
        }
    }

    // `i` and `b`: a part of what is lent, and its line.
    fn show(&self, lent: Lent) {
        match lent {
            Lent::Image => lines::text(b"image"),
            Lent::Slice => lines::text(b"slice"),
        }
        lines::hex(self.buffers.lent(self.buffers.sizes.part(lent)));
        answer::close(false);
    }

    // Does what a record says.
    fn obey(&mut self, c: Command) {
        match c {
            Command::Change(k, n) => self.change(k, n),
            Command::Serve(k) => self.server.obey(k, &mut self.buffers),
            Command::Call(k) => self.client.obey(k, &mut self.buffers),
            Command::Head(k) => serving::head(k, &mut self.buffers.room),
            Command::Show(lent) => self.show(lent),
        }
    }

    // Plays a script to its end. A proved loop has to end, and nothing says that a script does: it has more turns than a run uses up.
    pub fn play(&mut self) -> Result<(), BadScript> {
        for _ in 0..u64::MAX {
            let Some(c) = self.next()? else {
                return Ok(());
            };
            self.obey(c);
        }
        Ok(())
    }
}
