// The reader of a run file as one value: the file, and the place of the next scan, with thin methods over it. The work is in fox_run_file_take_up and
// fox_run_file_read, on slices and places.
#![tactic(auto)]

ghost use Rattle.std.specs.Prelude.{◌≡◌, IfOk};
ghost use Rattle.fox_server_key.specs.Prepared.{round_keys_in};
ghost use Rattle.fox_run_file.specs.Outcomes.{read_of};
ghost use Rattle.fox_run_file.specs.Promise.{TakesUpWith, next_at, ReadsWith};
ghost use Rattle.fox_run_file_reader.specs.Reader.{taken_of, reader_at, passed, TellsFirst};

use fox_refusals::refusal::Refusal;
use fox_run_file::place::Place;
use fox_run_file::reading::Opened;
use fox_run_file_read::places::{next_at, pass_over};
use fox_run_file_read::read::read_at;
use fox_run_file_take_up::take;
use fox_server_key::prepared::Prepared;

// A run file that was taken up: the file, and the place of the next scan.
#[derive(Clone, Copy)]
pub struct Reader<'a> {
    pub file: &'a [u8],
    pub place: Place,
}

impl<'a> Reader<'a> {
    pub fn take_up(p: Prepared, file: &'a [u8]) -> Result<Reader<'a>, Refusal>
        ensures of_file { IfOk result (λ r. r.file ≡ file.entry) }
        ensures taken { TakesUpWith p.cipher p.rounds p.key_len (round_keys_in p) file.now (taken_of result) }
    {
        let place = take::take_up(p, file)?;
        Ok(Reader { file, place })
    }

    // How many bytes the next scan has; none at the end.
    pub fn next_length(self) -> Option<usize>
        ensures { result ≡ next_at self.entry.file.now self.entry.place }
    {
        next_at(self.file, self.place)
    }

    // The same file at another place: where a reading says to go on.
    pub fn moved(self, place: Place) -> Reader<'a>
        ensures { result ≡ reader_at self.entry place }
    {
        Reader {
            file: self.file,
            place,
        }
    }

    // The next scan is passed over; at the end the reader stays.
    pub fn skip(self) -> Reader<'a>
        ensures { result ≡ passed self.entry }
    {
        self.moved(pass_over(self.file, self.place))
    }

    // The next scan is opened into the output.
    pub fn read(self, p: Prepared, out: &mut [u8]) -> Result<Option<Opened>, Refusal>
        ensures { ReadsWith p.cipher p.rounds p.key_len (round_keys_in p) self.entry.file.now self.entry.place
            out.old out.new (read_of result) }
    {
        read_at(p, self.file, self.place, out)
    }
}

// What comes first in a file. Its contract says nothing of a reader.
pub fn first_length(p: Prepared, file: &[u8]) -> Option<usize>
    ensures { TellsFirst p.cipher p.rounds p.key_len (round_keys_in p) file.now result }
{
    match Reader::take_up(p, file) {
        Ok(reader) => reader.next_length(),
        Err(_) => None,
    }
}
