//! Changes that others make in a store, as texts spell them.
use ob_meddle::{Act, ChangesErr, Meddle, parse_changes};
use std::alloc::{AllocError, Global};

/// The changes that a text spells, or none where it has another form.
pub fn listed(alloc: Global, text: &str) -> Result<Option<Vec<Meddle>>, AllocError> {
    match parse_changes(alloc, text.as_bytes()) {
        Ok(list) => Ok(Some(list)),
        Err(ChangesErr::Malformed) => Ok(None),
        Err(ChangesErr::NoMemory) => Err(AllocError),
    }
}

/// Writes the changes that a text spells.
pub fn read(alloc: Global, out: &mut String, text: &str) -> Result<(), AllocError> {
    let Some(list) = listed(alloc, text)? else {
        return out.push_str("refused");
    };
    let mut comma = "";
    for meddle in list.as_slice() {
        out.push_str(comma)?;
        change(out, meddle)?;
        comma = ", ";
    }
    Ok(())
}

fn change(out: &mut String, meddle: &Meddle) -> Result<(), AllocError> {
    write!(out, "before access {}: ", meddle.before)?;
    match meddle.act {
        Act::Fail => out.push_str("it fails"),
        Act::Flip {
            region,
            place,
            byte,
        } => write!(out, "flip byte {byte} of place {place} of region {region}"),
        Act::Copy { from, to } => write!(
            out,
            "copy place {} of region {} to place {} of region {}",
            from.place, from.region, to.place, to.region
        ),
        Act::Older { region, place } => write!(out, "put back place {place} of region {region}"),
    }
}
