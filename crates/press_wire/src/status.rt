//! The numbers of a post's statuses on the wire.

ghost use Rattle.std.specs.Prelude.{◌≡◌};
ghost use Rattle.press_wire.specs.Kinds.{status_of, status_number as number_of};

use press_posts::Status;

pub fn status_from_number(number: u8) -> Option<Status>
    ensures { result ≡ status_of number }
{
    match number {
        0 => Some(Status::Publish),
        1 => Some(Status::Future),
        2 => Some(Status::Draft),
        3 => Some(Status::Pending),
        4 => Some(Status::Private),
        5 => Some(Status::Trash),
        _ => None,
    }
}

pub fn status_number(status: Status) -> u8
    ensures { result ≡ number_of status }
{
    match status {
        Status::Publish => 0,
        Status::Future => 1,
        Status::Draft => 2,
        Status::Pending => 3,
        Status::Private => 4,
        Status::Trash => 5,
    }
}
