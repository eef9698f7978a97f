// Places in a run file: whether a scan stands at a place, how long it is, and the place after it. A place may have any numbers.
// File and place come together from C, which lends the file and three words.
ghost use Rattle.std.specs.Prelude.{◌≡◌, ◌+◌, ◌^◌, ◌<◌};
ghost use Rattle.fox_run_file.specs.Places.{passed_over};
ghost use Rattle.fox_run_file.specs.Promise.{next_at};
ghost use Rattle.fox_run_file_read.specs.Found.{FindsAt, moved_on};

use fox_run_file::place::Place;
use fox_run_file::scan::Scan;
use fox_run_file_scan::scan::scan_at;
use fox_text_lines::lines::rest;

// Looks for the next scan at a place.
pub(crate) fn find_at(file: &[u8], place: Place) -> Option<Scan>
    ensures { FindsAt file.now place result }
{
    if place.scans >= 65_535 {
        return None;
    }
    if place.offset > 1_073_741_824 {
        return None;
    }
    let number = place.scans as u32 + 1;
    scan_at(rest(file, place.at), number)
}

// The place after a scan that was found at a place.
pub(crate) fn after(place: Place, s: Scan) -> Place
    requires { (place.at + s.head + s.size + 1 < 2 ^ 64) × (place.scans < 65535) × (place.offset + s.size < 2 ^ 64) }
    ensures { result ≡ moved_on place s }
{
    Place {
        at: place.at + s.head + s.size + 1,
        scans: place.scans + 1,
        offset: place.offset + s.size,
    }
}

// How many bytes the next scan has; none at the end.
#[tactic(auto, unfolding(fox_run_file::specs::Promise::next_at))]
pub fn next_at(file: &[u8], place: Place) -> Option<usize>
    ensures { result ≡ next_at file.now place }
{
    let scan = find_at(file, place)?;
    Some(scan.size)
}

pub fn pass_over(file: &[u8], place: Place) -> Place
    ensures { result ≡ passed_over file.now place }
{
    match find_at(file, place) {
        Some(scan) => after(place, scan),
        None => place,
    }
}
