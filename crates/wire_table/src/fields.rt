//! The macro that reads or writes the fields of a table in a body.

/// Reads or writes fields of a checked table.
///
/// `fields!(put table in out: num 0 = 2u32, num 1 = *padding, raw 8 = id)` writes numbers into
/// fields 0 and 1 of the table, and an array of bytes at byte 8.
///
/// `fields!(get table in bytes: Id { padding: u32 1, id: raw 8, left: is (rest) })` makes the value
/// `Id` of a `u32` in field 1 of the table, the array of bytes at byte 8, and a value that was read
/// in another way.
#[macro_export]
macro_rules! fields {
    (put $table:ident in $out:ident: $($how:ident $place:literal = $value:expr),* $(,)?) => {
        $( $crate::fields!(@put $how $place, $table, $out, $value); )*
    };
    (get $table:ident in $bytes:ident: $made:ident $(:: $variant:ident)? { $($name:ident: $how:ident $place:tt),* $(,)? }) => {
        $made $(:: $variant)? { $( $name: $crate::fields!(@get $how $place, $table, $bytes) ),* }
    };
    (@put num $place:literal, $table:ident, $out:ident, $value:expr) => {
        $table.put($out, $place, u64::from($value))
    };
    (@put raw $place:literal, $table:ident, $out:ident, $value:expr) => {
        $crate::put_bytes($out, $place, $value)
    };
    (@get raw $place:literal, $table:ident, $bytes:ident) => {
        $crate::array_at($bytes, $place)
    };
    (@get is $value:tt, $table:ident, $bytes:ident) => {
        $value
    };
    (@get $width:ident $place:literal, $table:ident, $bytes:ident) => {
        $table.get($bytes, $place) as $width
    };
}
