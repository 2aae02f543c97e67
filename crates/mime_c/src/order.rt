//! The numbers of checking orders. This project's own.

ghost use Rattle.std.specs.Prelude.{◌≡◌};
ghost use Rattle.mime_c.specs.Order.{numbered_order};

use mime_lookup::Order;

/// The order that a number asks for, where there is one.
pub fn order_of(number: u32) -> Option<Order>
    // The order of that number.
    ensures { result ≡ numbered_order number }
{
    match number {
        0 => Some(Order::GlobsFirst),
        1 => Some(Order::MagicFirst),
        2 => Some(Order::AllGlobs),
        _ => None,
    }
}
