//! The numbers of queries that stand together in one request.
ghost use Rattle.std.specs.Prelude.{◌≡◌, ◌<◌, decimal};

/// The number of a query among several, from 0 to 15, as it begins the path of a fault.
pub fn number_text(number: usize) -> &'static str
    requires { number < 16 }
    ensures { result.now ≡ decimal number }
{
    match number {
        0 => "0",
        1 => "1",
        2 => "2",
        3 => "3",
        4 => "4",
        5 => "5",
        6 => "6",
        7 => "7",
        8 => "8",
        9 => "9",
        10 => "10",
        11 => "11",
        12 => "12",
        13 => "13",
        14 => "14",
        15 => "15",
        _ => unreachable!(),
    }
}
