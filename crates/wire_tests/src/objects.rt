//! Objects as the standard spells them.

ghost use Rattle.std.specs.Prelude.{◌≡◌, [], OnOk};
ghost use Rattle.ddm_objects.specs.Writing.{nothing_yet};

use crate::told::tell_bytes;
use ddm_objects::code_point::*;
use ddm_objects::{Builder, CodePoint, Object, close, find_in, open, put};
use std::alloc::{AllocError, Global};

fn tell_value(object: Option<Object<'_>>, told: &mut String) -> Result<(), AllocError> {
    let Some(object) = object else {
        return told.push_str("none");
    };
    let (code, at) = (CodePoint(object.code), object.at);
    write!(told, "{code} at {at}: ")?;
    tell_bytes(told, object.value)
}

/// Tells the object that a text begins with, and what stands behind it; or the SYNERRCD of the fault.
pub fn tell_object(text: &[u8], told: &mut String) -> Result<(), AllocError> {
    match Object::parse(text) {
        Ok((object, rest)) => {
            tell_value(Some(object), told)?;
            told.push_str(" | ")?;
            tell_bytes(told, rest)
        }
        Err(fault) => {
            let code = fault.syntax_error_code();
            write!(told, "fault {code:02X}")
        }
    }
}

/// Tells the parts of the object that a text begins with.
pub fn tell_outline(text: &[u8], told: &mut String) -> Result<(), AllocError> {
    let Ok((object, _)) = Object::parse(text) else {
        return told.push_str("none");
    };
    told.push_str("parts")?;
    for part in object.parts() {
        told.push_str(", ")?;
        tell_value(part.ok(), told)?;
    }
    Ok(())
}

/// Tells the one object of a code point in a text; or why there is not one.
pub fn tell_found(text: &[u8], code: u16, told: &mut String) -> Result<(), AllocError> {
    match find_in(text, code) {
        Ok(found) => tell_value(found, told),
        Err(fault) => write!(told, "{fault:?}"),
    }
}

/// Tells the one part of a code point of the object that a text begins with.
pub fn tell_part(text: &[u8], code: u16, told: &mut String) -> Result<(), AllocError> {
    match Object::parse(text) {
        Ok((object, _)) => tell_value(object.find(code).unwrap_or(None), told),
        Err(_) => told.push_str("none"),
    }
}

// ACCRDBRM, whose last part is a container in turn. Nothing that is dropped is held here, since each exit would drop it.
fn nest(builder: &mut Builder) -> Result<(), AllocError>
    requires { builder.old ≡ nothing_yet }
    ensures { OnOk result (builder.new.containers ≡ []) }
{
    builder.open(ACCRDBRM)?;
    builder.scalar(SVRCOD, &[0, 0])?;
    builder.scalar(PRDID, b"RDA01000")?;
    builder.scalar(TYPDEFNAM, b"QTDSQLASC")?;
    builder.open(TYPDEFOVR)?;
    builder.scalar(CCSIDSBC, &[0x04, 0xB8])?;
    builder.scalar(CCSIDMBC, &[0x04, 0xB8])?;
    builder.close()?;
    builder.close()
}

/// Tells what a builder makes of nested containers.
pub fn tell_nested(alloc: Global, told: &mut String) -> Result<(), AllocError> {
    let mut builder = Builder::new(alloc);
    nest(&mut builder)?;
    tell_bytes(told, &builder.finish())
}

fn put_in(out: &mut Vec<u8>, value: &[u8]) -> Result<(), AllocError> {
    let outer = open(out, SQLDTA)?;
    put(out, FDODTA, value)?;
    if out.len() < 4 || outer.at > out.len() - 4 {
        return Err(AllocError);
    }
    close(out, outer)
}

/// Tells an object of these bytes in a container that is written around it.
pub fn tell_contained(alloc: Global, value: &[u8], told: &mut String) -> Result<(), AllocError> {
    let mut out = Vec::new(alloc);
    put_in(&mut out, value)?;
    tell_bytes(told, &out)
}
