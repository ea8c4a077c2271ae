ghost use types.Logic.{sem};
ghost use Rattle.std.specs.Prelude.{◌≡◌, IfOk, IfSome};
ghost use Rattle.ira_lent.specs.Room.{lies_free};
ghost use Rattle.ira_web.specs.Serves.{IsAnsweredAs, MayBeServed};
ghost use Rattle.ira_web.specs.Told.{Holds, ToldReplies};

use crate::files::read_files;
use crate::request::Request;
use crate::serve::serve;
use crate::told::Told;
use ira_event::OutOfMemory;
use ira_lent::{Lent, Room};
use ira_view::Status;

/// The values are those of no request, or the files aren't those of one.
const NO_REQUEST: u32 = 4;
/// What comes of the request has no room in `out`, or its sizes have none in `sizes`.
const NO_ROOM: u32 = 5;

/// Serves one request, in memory that is lent for it and not had back: so many bytes, the first of them aligned to 16.
/// `values` are the number of a command and its values. Of each file its name and its text stand in `bytes`, and their
/// lengths in `lengths`.
///
/// What comes of it is written in parts, one after another, into `out`: what the program would print on standard
/// output, what on standard error, and each file that it would write. How many parts there are, and how many bytes each
/// is, is written into `sizes`. The result is the program's status, or says that memory ran out, that this is no
/// request, or that there is too little room for what comes of it. Then nothing of `out` and `sizes` counts.
#[unsafe(no_mangle)]
pub unsafe extern "C" fn ira_serve(
    lent: *mut u8,
    size: usize,
    values: &[u64],
    bytes: &[u8],
    lengths: &[usize],
    out: &mut [u8],
    sizes: &mut [usize],
) -> u32
    requires* { sem 𝓛 (lies_free size lent) }
    ensures { MayBeServed values.now lengths.now bytes.now out.new sizes.new result }
{
    let room = Room::from_raw_parts(lent, size);
    serve_in(room, values, bytes, lengths, out, sizes)
}

/// The same, in a room.
fn serve_in(
    room: Room,
    values: &[u64],
    bytes: &[u8],
    lengths: &[usize],
    out: &mut [u8],
    sizes: &mut [usize],
) -> u32
    ensures { MayBeServed values.now lengths.now bytes.now out.new sizes.new result }
{
    let lent = Lent::new(room);
    match answer(&lent, values, bytes, lengths) {
        Ok(Some((status, told))) => {
            if told.tell(out, sizes) {
                u32::from(status.number())
            } else {
                NO_ROOM
            }
        }
        Ok(None) => NO_REQUEST,
        Err(OutOfMemory) => u32::from(Status::OutOfMemory.number()),
    }
}

/// What comes of the request of these values and files, if it is one.
fn answer<'a>(
    lent: &'a Lent,
    values: &[u64],
    bytes: &[u8],
    lengths: &[usize],
) -> Result<Option<(Status, Told<&'a Lent>)>, OutOfMemory>
    ensures { IfOk result (λ answered. IfSome answered (λ told. (replies : ToldReplies)
        × IsAnsweredAs values.now lengths.now bytes.now replies × (told.0 ≡ replies.status) × Holds replies.parts told.1)) }
{
    let Some(request) = Request::of_values(values) else {
        return Ok(None);
    };
    let Some(files) = read_files(lent, lengths, bytes)? else {
        return Ok(None);
    };
    let Some(replies) = serve(lent, &request, &files)? else {
        return Ok(None);
    };
    let Some(first) = replies.first() else {
        return Ok(None);
    };
    Ok(Some((first.status(), Told::of_replies(lent, &replies)?)))
}
