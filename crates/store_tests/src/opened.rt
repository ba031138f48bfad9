// Rows and images taken into use, each by a check and an open of its own, which no trait has.
use image_store::Image;
use record::Row;
use row_store::Rows;
use std::process::Abort;

// Rows are checked and opened for one step.
pub(crate) fn on_rows<T, F: FnOnce(&mut Rows) -> T>(rt: &impl Abort, rows: &mut [Row], step: F) -> T
    requires { F.IsAlwaysCallable step }
{
    let Ok(()) = Rows::check(rows) else {
        panic!(rt; "unusable rows")
    };
    step(&mut Rows::open(rows))
}

// An image is checked and opened for one step.
pub(crate) fn on_image<T, F: FnOnce(&mut Image) -> T>(
    rt: &impl Abort,
    bytes: &mut [u8],
    step: F,
) -> T
    requires { F.IsAlwaysCallable step }
{
    let Ok(()) = slots::check(bytes) else {
        panic!(rt; "unusable image")
    };
    step(&mut Image::open(bytes))
}
