//! The loop over a list between commas.

/// Reads items between commas, from `rest` on up to the closing token, behind which a function answers with its
/// `list`. Each is read by `read` at `rest`, and `pushed` is the list with it; `height` is that of the deepest. Where
/// an item or what stands behind it is refused, the list is dropped by `discard`.
macro_rules! items_up_to {
    ($close:expr, $depth:expr, $list:ident, $height:ident, $rest:ident, $item:pat = $read:expr, $pushed:expr, $discard:path) => {
        'items: loop {
            let Read {
                tree: $item,
                height: n,
                rest: after,
            } = match $read {
                Ok(read) => read,
                Err(error) => return Err($discard($list, error)),
            };
            $list = $pushed;
            $height = $height.max(n);
            let (end, behind) = match after_item(after, $close, within($height, $depth)) {
                Ok(found) => found,
                Err(error) => return Err($discard($list, error)),
            };
            match end {
                Some(close) => return Ok(Read {
                    tree: Closed {
                        part: $list,
                        close,
                    },
                    height: $height,
                    rest: behind,
                }),
                None => $rest = behind,
            }
        }
    };
}

pub(crate) use items_up_to;
