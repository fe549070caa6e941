// What a device is to do, and its bytes.
ghost use Rattle.std.specs.Prelude.{◌≡◌, ◌++◌, ◌∷◌, MatchResult};
ghost use Rattle.deferred_disk.specs.Bytes.{half_byte, head, order_bytes};
ghost use Rattle.deferred_disk.specs.NotedOrders.{order_value};

use disk_trait::Half;
use std::alloc::AllocError;

#[derive(Clone, Copy, Drop)]
pub(crate) enum Order<'a> {
    Write {
        half: Half,
        at: u64,
        bytes: &'a [u8],
    },
    Cut {
        half: Half,
        len: u64,
    },
    Sync {
        half: Half,
    },
}

const HEAD: usize = 18;

const WRITES: u8 = 1;

const CUTS: u8 = 2;

const SYNCS: u8 = 3;

fn byte_of(half: Half) -> u8
    ensures { result ≡ half_byte half }
{
    match half {
        Half::A => 0,
        Half::B => 1,
    }
}

// The first bytes of an order.
fn head(kind: u8, half: Half, place: u64, len: u64) -> [u8; HEAD]
    ensures { result ≡ head kind half place len }
{
    let mut bytes = [0u8; HEAD];
    bytes[0] = kind;
    bytes[1] = byte_of(half);
    bytes[2..10].copy_from_slice(&place.to_le_bytes());
    bytes[10..].copy_from_slice(&len.to_le_bytes());
    bytes
}

// Two pieces more, or none.
fn push_both(orders: &mut Vec<u8>, first: &[u8], second: &[u8]) -> Result<(), AllocError>
    ensures { MatchResult result (λ _. orders.new.items ≡ orders.old.items ++ (first.now ++ second.now))
        (λ _. orders.new.items ≡ orders.old.items) }
{
    let before = orders.len();
    orders.extend_from_slice(first)?;
    let done = orders.extend_from_slice(second);
    if done.is_err() {
        orders.truncate(before);
    }
    done
}

/// Writes one order more. Where there is no room for it, all are as before.
pub(crate) fn push(orders: &mut Vec<u8>, order: &Order<'_>) -> Result<(), AllocError>
    ensures { MatchResult result
        (λ _. orders.new.items ≡ orders.old.items ++ order_bytes (order_value order.now))
        (λ _. orders.new.items ≡ orders.old.items) }
{
    match *order {
        Order::Write { half, at, bytes } => {
            push_both(orders, &head(WRITES, half, at, bytes.len() as u64), bytes)
        }
        Order::Cut { half, len } => orders.extend_from_slice(&head(CUTS, half, len, 0)),
        Order::Sync { half } => orders.extend_from_slice(&head(SYNCS, half, 0, 0)),
    }
}
