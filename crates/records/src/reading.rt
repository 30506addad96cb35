// Reading a batch record by record.
ghost use Rattle.std.specs.Prelude.{◌≡◌, IfSome, IfOk};
ghost use Rattle.records.specs.Reader.{next_at};
ghost use Rattle.records.specs.RoundTrip.{Covers};
ghost use Rattle.refusals.specs.Telling.{told};

use crate::decode::read_record;
use crate::event::Event;
use crate::reader::Reader;
use refusals::Refusal;
use values::Value;

impl Reader<'_> {
    // The next event, none at the end, or a refusal, which leaves the reader where it is. The bytes read are those in which the event is written.
    pub fn next<V: Value>(&mut self) -> Result<Option<Event<V>>, Refusal>
        ensures answer { told result ≡ (next_at V.Value.reads self.old.bytes.now self.old.place).answer }
        ensures place { self.new.place ≡ (next_at V.Value.reads self.old.bytes.now self.old.place).place }
        ensures bytes { self.new.bytes ≡ self.old.bytes }
        ensures covers { IfOk result (λ o. IfSome o (λ e. Covers V.Value.written self.old.bytes.now self.old.place e self.new.place)) }
    {
        if self.place >= self.bytes.len() {
            return Ok(None);
        }
        let read = read_record(self.bytes, self.place);
        let (event, end) = read.map_err(|place| Refusal::Malformed { place })?;
        self.place = end;
        Ok(Some(event))
    }
}
