//! Writing lists.
ghost use Rattle.std.specs.Prelude.{◌≡◌, ◌++◌, ◌∷◌, [], map, OnOk};
ghost use Rattle.serde_json.specs.Data.{Data, array};
ghost use Rattle.serde_json.specs.View.{items_of};
ghost use Rattle.serde_json.specs.Written.{compact_text};
ghost use Rattle.policy_book.specs.Laws.Shapes.{PolicyShape};

use crate::text::{push, push_comma};
use policy_book::Policy;
use std::alloc::AllocError;

/// What a list is written of, with the names of a policy.
pub(crate) trait Item {
    /// What is written for an item.
    ghost item_data: { PolicyShape → Self → Data };

    /// Adds an item.
    fn push_item(&self, out: &mut Vec<u8>, p: &Policy) -> Result<(), AllocError>
        ensures { OnOk result (out.new.items ≡ out.old.items ++ compact_text
            (item_data p.now self.now)) };
}

/// Adds items, in order.
pub(crate) fn push_list<T: Item>(
    out: &mut Vec<u8>,
    p: &Policy,
    items: &[T],
) -> Result<(), AllocError>
    ensures { OnOk result (out.new.items ≡ out.old.items ++ compact_text
        (array (items_of (map (T.item_data p.now) items.now)))) }
{
    let mut later = false;
    push(out, b"[")?;
    'items: for item in items {
        push_comma(out, later)?;
        item.push_item(out, p)?;
        later = true;
    }
    push(out, b"]")?;
    Ok(())
}

/// Adds bytes, items in order, and a closing brace.
pub(crate) fn push_list_in<T: Item>(
    out: &mut Vec<u8>,
    before: &[u8],
    p: &Policy,
    items: &[T],
) -> Result<(), AllocError>
    ensures { OnOk result (out.new.items ≡ out.old.items ++ (before.now
        ++ (compact_text (array (items_of (map (T.item_data p.now) items.now))) ++ 125 ∷ []))) }
{
    push(out, before)?;
    push_list(out, p, items)?;
    push(out, b"}")
}
