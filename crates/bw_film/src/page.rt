//! The page that shows a film.

ghost use Rattle.std.specs.Prelude.{◌≡◌, ◌++◌, IfOk, OnOk, codes, decimal, flat_map};
ghost use Rattle.std.specs.String.{string_bytes};
ghost use Rattle.bw_film.specs.Pages.{above_film, attribute_text, attributes_text, cut_text};
ghost use Rattle.bw_film.specs.Pages.{drawing_text, escaped, escaped_byte, frame_text, moment_text};
ghost use Rattle.bw_film.specs.Pages.{page_text, page_with, span_between, span_text, style_for};
ghost use Rattle.bw_film.specs.Pages.{whole_text};

mod crew;
mod text;

use crate::crew::Standing;
use crate::film::{Film, MOST_FRAMES};
use crate::frame::Frame;
use crate::page::crew::push_crew;
use crate::page::text::{BODY, CREW, CREW_STYLE, HEAD, SCRIPT, TOP};
use bw_delta::NoMemory;
use itoa::Buffer;
use std::alloc::{AllocError, Global};

/// Returns a page of HTML that shows the film's frames one at a time, by buttons, keys and a slider.
/// It needs no other file.
pub fn page_of(alloc: Global, film: &Film) -> Result<Vec<u8>, NoMemory>
    ensures { IfOk result (λ page. page.items ≡ page_text film.now) }
{
    let span = span_of(alloc, film)?;
    let style = style_for(CREW_STYLE, &film.crew);
    let above = above_film(alloc, HEAD, style, TOP, &span, BODY)?;
    page_with(alloc, above, &film.frames, SCRIPT)
}

/// Returns the style, unless no worker is shown.
fn style_for<'a>(style: &'a str, crew: &[Standing]) -> &'a str
    ensures { result.now ≡ style_for style.now crew.now }
{
    if crew.is_empty() { "" } else { style }
}

/// Returns the texts, one after the other.
fn above_film(
    alloc: Global,
    head: &str,
    style: &str,
    top: &str,
    span: &str,
    body: &str,
) -> Result<Vec<u8>, AllocError>
    ensures { IfOk result (λ above. above.items
        ≡ above_film head.now style.now top.now span.now body.now) }
{
    let mut above = Vec::from_slice(alloc, head.as_bytes())?;
    above.extend_from_slice(style.as_bytes())?;
    above.extend_from_slice(top.as_bytes())?;
    above.extend_from_slice(span.as_bytes())?;
    above.extend_from_slice(body.as_bytes())?;
    Ok(above)
}

/// Returns what is above the film, the film, and the script.
fn page_with(
    alloc: Global,
    above: Vec<u8>,
    frames: &[Frame],
    script: &str,
) -> Result<Vec<u8>, NoMemory>
    ensures { IfOk result (λ page. page.items
        ≡ page_with above.items frames.now script.now) }
{
    let mut page = above;
    push_frames(alloc, &mut page, frames)?;
    page.extend_from_slice(script.as_bytes())?;
    Ok(page)
}

/// Returns which moments of how many are shown.
fn span_of(alloc: Global, film: &Film) -> Result<String, AllocError>
    ensures { IfOk result (λ span. string_bytes span ≡ span_text film.now) }
{
    let moments = film.moments;
    match (film.frames.first(), film.frames.last()) {
        (Some(first), Some(last)) => {
            span_between(alloc, first.moment, last.moment, moments, film.choice.to)
        }
        _ => format!(in alloc; "None of the {moments} moments is shown."),
    }
}

/// Returns that the moments from the first to the last are shown, of so many up to the one asked
/// for.
fn span_between(
    alloc: Global,
    first: u64,
    last: u64,
    moments: u64,
    to: u64,
) -> Result<String, AllocError>
    ensures { IfOk result (λ span. string_bytes span ≡ span_between first last moments to) }
{
    let next = last.saturating_add(1);
    if next < moments && last < to {
        return cut_span(alloc, first, last, moments, next);
    }
    whole_span(alloc, first, last, moments)
}

fn whole_span(alloc: Global, first: u64, last: u64, moments: u64) -> Result<String, AllocError>
    ensures { IfOk result (λ span. string_bytes span ≡ whole_text first last moments) }
{
    format!(in alloc; "Moments {first} to {last} are shown, of {moments} in all.")
}

fn cut_span(
    alloc: Global,
    first: u64,
    last: u64,
    moments: u64,
    next: u64,
) -> Result<String, AllocError>
    ensures { IfOk result (λ span. string_bytes span ≡ cut_text first last moments next) }
{
    format!(in alloc;
        "Moments {first} to {last} are shown, of {moments} in all: a page has {MOST_FRAMES} at most, and --from {next} goes on."
    )
}

/// Appends the frames in their order.
fn push_frames(alloc: Global, page: &mut Vec<u8>, frames: &[Frame]) -> Result<(), NoMemory>
    ensures { OnOk result (page.new.items ≡ page.old.items ++ flat_map frame_text frames.now) }
{
    for frame in frames {
        push_frame(alloc, page, frame)?;
    }
    Ok(())
}

/// Appends a frame.
fn push_frame(alloc: Global, page: &mut Vec<u8>, frame: &Frame) -> Result<(), NoMemory>
    ensures { OnOk result (page.new.items ≡ page.old.items ++ frame_text frame.now) }
{
    push_moment(page, frame.moment)?;
    push_texts(page, frame)?;
    push_drawing(page, &frame.drawing)?;
    push_crew(alloc, page, CREW, &frame.crew)?;
    page.extend_from_slice(b"</template>\n")?;
    Ok(())
}

/// Begins the element of a moment, up to its first attribute's value.
fn push_moment(page: &mut Vec<u8>, moment: u64) -> Result<(), AllocError>
    ensures { OnOk result (page.new.items ≡ page.old.items ++ moment_text moment) }
{
    let mut digits = Buffer::new();
    page.extend_from_slice(b"<template data-moment=\"")?;
    page.extend_from_slice(digits.format(moment).as_bytes())?;
    Ok(())
}

/// Appends the frame's texts as attributes. They may be of the input, and are escaped.
fn push_texts(page: &mut Vec<u8>, frame: &Frame) -> Result<(), AllocError>
    ensures { OnOk result (page.new.items ≡ page.old.items ++ attributes_text frame.now) }
{
    push_attribute(page, "told", &frame.told)?;
    push_attribute(page, "proved", frame.proved)?;
    push_attribute(page, "row", &frame.row)?;
    push_attribute(page, "note", &frame.note)?;
    Ok(())
}

/// Ends the last attribute, and appends the drawing.
fn push_drawing(page: &mut Vec<u8>, drawing: &str) -> Result<(), AllocError>
    ensures { OnOk result (page.new.items ≡ page.old.items ++ drawing_text drawing.now) }
{
    page.extend_from_slice(b"\">\n")?;
    page.extend_from_slice(drawing.as_bytes())?;
    page.extend_from_slice(b"\n")?;
    Ok(())
}

/// Ends an attribute, and begins that of the name with the text.
fn push_attribute(page: &mut Vec<u8>, name: &str, text: &str) -> Result<(), AllocError>
    ensures { OnOk result (page.new.items
        ≡ page.old.items ++ attribute_text name.now text.now) }
{
    page.extend_from_slice(b"\" data-")?;
    page.extend_from_slice(name.as_bytes())?;
    page.extend_from_slice(b"=\"")?;
    push_escaped(page, text)
}

/// Appends the text, as it stands between the quotes of an attribute.
fn push_escaped(page: &mut Vec<u8>, text: &str) -> Result<(), AllocError>
    ensures { OnOk result (page.new.items ≡ page.old.items ++ escaped text.now) }
{
    for byte in text.as_bytes() {
        push_byte(page, *byte)?;
    }
    Ok(())
}

fn push_byte(page: &mut Vec<u8>, byte: u8) -> Result<(), AllocError>
    ensures { OnOk result (page.new.items ≡ page.old.items ++ escaped_byte byte) }
{
    match byte {
        b'&' => page.extend_from_slice(b"&amp;"),
        b'<' => page.extend_from_slice(b"&lt;"),
        b'>' => page.extend_from_slice(b"&gt;"),
        b'"' => page.extend_from_slice(b"&quot;"),
        byte => page.extend_from_slice(&[byte]),
    }
}
