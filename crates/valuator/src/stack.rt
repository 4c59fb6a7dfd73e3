//! The ids of the values that a teller holds, the newest last.
ghost use Rattle.std.specs.Prelude.{◌≡◌, ◌+◌, ◌-◌, ◌<◌, ◌≤◌, [], ◌∷◌, ◌++◌, length, take, drop, OnOk, OnErr};
ghost use Rattle.std.specs.List.{items_where_true};
ghost use Rattle.grammar_model.specs.Text.{text_of};
ghost use Rattle.value_text.specs.Nodes.{value_at};

use value_text::{NoMemory, Pool, ValueId, append_text};

/// The newest `count` ids.
pub fn newest(ids: &[ValueId], count: usize) -> &[ValueId]
    requires { count ≤ length ids.now }
    ensures { result.now ≡ drop (length ids.now - count) ids.now }
{
    &ids[ids.len() - count..]
}

/// Replaces the newest `count` ids by one.
pub fn replace(ids: &mut Vec<ValueId>, count: usize, id: ValueId) -> Result<(), NoMemory>
    requires { count ≤ length ids.old.items }
    ensures ok { OnOk result (ids.new.items ≡
        take (length ids.old.items - count) ids.old.items ++ id ∷ []) }
    ensures err { OnErr result (ids.new.items ≡ ids.old.items) }
{
    let from = ids.len() - count;
    ids.push(id)?;
    ids[from] = id;
    ids.truncate(from + 1);
    Ok(())
}

/// Appends a value's text and the end of its line.
pub fn append_line(pool: &Pool, id: ValueId, out: &mut Vec<u8>) -> Result<(), NoMemory>
    requires { id < length pool.now }
    ensures ok { OnOk result (out.new.items ≡
        out.old.items ++ (text_of (value_at pool.now id) ++ 10 ∷ [])) }
    ensures err { OnErr result (out.new.items ≡ out.old.items) }
{
    let before = out.len();
    append_text(pool, id, out)?;
    if out.push(b'\n').is_err() {
        out.truncate(before);
        return Err(NoMemory);
    }
    Ok(())
}

/// Lists the ids of those children that are shown, in place of what was listed.
pub fn list_visible(
    shown: &[bool],
    children: &[ValueId],
    ids: &mut Vec<ValueId>,
) -> Result<(), NoMemory>
    requires { length shown.now ≡ length children.now }
    ensures { OnOk result (ids.new.items ≡ items_where_true shown.now children.now) }
{
    ids.clear();
    for (child, is_shown) in children.iter().zip(shown) {
        if *is_shown {
            ids.push(*child)?;
        }
    }
    Ok(())
}
