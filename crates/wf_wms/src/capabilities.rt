//! The service metadata document, block by block. Each call appends its whole block and returns Ok
//! unless allocation fails.
ghost use Rattle.std.specs.Prelude.{◌≡◌, ◌++◌, OnOk, IfOk, flat_map};
ghost use Rattle.wf_wms.specs.Capabilities.{start_tag, end_tag, element, limit, online_resource, service, operation, requests, crs_lines, side, box_line, box_lines, layer_line, layers, opening, capabilities};

use crate::limits::MOST_ENTRIES;
use crate::xml::{write_decimal, write_escaped, write_text};
use std::alloc::{AllocError, Global};
use wf_def::{Extent, Layer, MapDef, Micro, Projection, Text};
use wf_geometry::MOST_PIXELS;
use wf_text::write_number;

#[tactic(auto, unfolding(crate::specs::Capabilities::start_tag))]
fn write_start_tag(name: &str, document: &mut Vec<u8>) -> Result<(), AllocError>
    ensures { OnOk result (document.new.items ≡ document.old.items ++ start_tag name.now) }
{
    write_text("<", document)?;
    write_text(name, document)?;
    write_text(">", document)
}

#[tactic(auto, unfolding(crate::specs::Capabilities::end_tag))]
fn write_end_tag(name: &str, document: &mut Vec<u8>) -> Result<(), AllocError>
    ensures { OnOk result (document.new.items ≡ document.old.items ++ end_tag name.now) }
{
    write_text("</", document)?;
    write_text(name, document)?;
    write_text(">", document)
}

#[tactic(auto, unfolding(crate::specs::Capabilities::element))]
fn write_element(name: &str, text: &Text, document: &mut Vec<u8>) -> Result<(), AllocError>
    ensures { OnOk result (document.new.items ≡ document.old.items ++ element name.now text.now) }
{
    write_start_tag(name, document)?;
    write_escaped(text.as_bytes(), document)?;
    write_end_tag(name, document)
}

fn write_online_resource(address: &Text, document: &mut Vec<u8>) -> Result<(), AllocError>
    ensures { OnOk result (document.new.items ≡ document.old.items ++ online_resource address.now) }
{
    write_text(
        "<OnlineResource xlink:type=\"simple\" xlink:href=\"",
        document,
    )?;
    write_escaped(address.as_bytes(), document)?;
    write_text("\"/>", document)?;
    Ok(())
}

// A line with an element that holds a number.
fn write_limit(name: &str, number: usize, document: &mut Vec<u8>) -> Result<(), AllocError>
    ensures { OnOk result (document.new.items ≡ document.old.items ++ limit name.now number) }
{
    write_start_tag(name, document)?;
    write_decimal(number, document)?;
    write_end_tag(name, document)?;
    write_text("\n", document)?;
    Ok(())
}

// The service's description (OGC 06-042, 7.2.4.2 and 7.2.4.3).
fn write_service(map: &MapDef, document: &mut Vec<u8>) -> Result<(), AllocError>
    ensures { OnOk result (document.new.items ≡ document.old.items ++ service map.now) }
{
    write_text("<Service>\n<Name>WMS</Name>\n", document)?;
    write_element("Title", map.title(), document)?;
    write_text("\n", document)?;
    write_element("Abstract", map.abstract_text(), document)?;
    write_text("\n", document)?;
    write_online_resource(map.address(), document)?;
    write_text("\n", document)?;
    write_limit("LayerLimit", MOST_ENTRIES, document)?;
    write_limit("MaxWidth", MOST_PIXELS as usize, document)?;
    write_limit("MaxHeight", MOST_PIXELS as usize, document)?;
    write_text("</Service>\n", document)?;
    Ok(())
}

// One operation: the format of its answer, and its address (OGC 06-042, 7.2.4.4).
fn write_operation(
    name: &str,
    format: &str,
    address: &Text,
    document: &mut Vec<u8>,
) -> Result<(), AllocError>
    ensures { OnOk result
        (document.new.items ≡ document.old.items ++ operation name.now format.now address.now) }
{
    write_start_tag(name, document)?;
    write_text("\n<Format>", document)?;
    write_text(format, document)?;
    write_text("</Format>\n<DCPType><HTTP><Get>", document)?;
    write_online_resource(address, document)?;
    write_text("</Get></HTTP></DCPType>\n", document)?;
    write_end_tag(name, document)?;
    write_text("\n", document)?;
    Ok(())
}

// The operations, and the format of exceptions.
fn write_requests(map: &MapDef, document: &mut Vec<u8>) -> Result<(), AllocError>
    ensures { OnOk result (document.new.items ≡ document.old.items ++ requests map.now) }
{
    write_text("<Request>\n", document)?;
    write_operation("GetCapabilities", "text/xml", map.address(), document)?;
    write_operation("GetMap", "image/x-portable-pixmap", map.address(), document)?;
    write_text(
        "</Request>\n<Exception>\n<Format>XML</Format>\n</Exception>\n",
        document,
    )?;
    Ok(())
}

#[tactic(auto, unfolding(crate::specs::Capabilities::crs_lines, crate::specs::Capabilities::crs_line))]
fn crs_lines(projection: Projection) -> &'static str
    ensures { result.now ≡ crs_lines projection }
{
    match projection {
        Projection::Epsg4326 => "<CRS>EPSG:4326</CRS>\n<CRS>CRS:84</CRS>\n",
        Projection::Epsg3857 => "<CRS>EPSG:3857</CRS>\n",
    }
}

fn write_side(name: &str, number: Micro, document: &mut Vec<u8>) -> Result<(), AllocError>
    ensures { OnOk result (document.new.items ≡ document.old.items ++ side name.now number) }
{
    write_text(" ", document)?;
    write_text(name, document)?;
    write_text("=\"", document)?;
    write_number(number, document)?;
    write_text("\"", document)?;
    Ok(())
}

// The sides of the layers' box along the axes of a reference system (OGC 06-042, 7.2.4.6.8).
fn write_box_line(
    crs: &str,
    minx: Micro,
    miny: Micro,
    maxx: Micro,
    maxy: Micro,
    document: &mut Vec<u8>,
) -> Result<(), AllocError>
    ensures { OnOk result
        (document.new.items ≡ document.old.items ++ box_line crs.now minx miny maxx maxy) }
{
    write_text("<BoundingBox CRS=\"", document)?;
    write_text(crs, document)?;
    write_text("\"", document)?;
    write_side("minx", minx, document)?;
    write_side("miny", miny, document)?;
    write_side("maxx", maxx, document)?;
    write_side("maxy", maxy, document)?;
    write_text("/>\n", document)?;
    Ok(())
}

// The box in each reference system of the projection: the first axis of EPSG:4326 is the latitude.
fn write_box_lines(
    projection: Projection,
    extent: Extent,
    document: &mut Vec<u8>,
) -> Result<(), AllocError>
    ensures { OnOk result (document.new.items ≡ document.old.items ++ box_lines projection extent) }
{
    let (minx, miny) = (extent.minx(), extent.miny());
    let (maxx, maxy) = (extent.maxx(), extent.maxy());
    match projection {
        Projection::Epsg4326 => {
            write_box_line("EPSG:4326", miny, minx, maxy, maxx, document)?;
            write_box_line("CRS:84", minx, miny, maxx, maxy, document)?;
        }
        Projection::Epsg3857 => write_box_line("EPSG:3857", minx, miny, maxx, maxy, document)?,
    }
    Ok(())
}

const WORLD: &str = "<EX_GeographicBoundingBox><westBoundLongitude>-180</westBoundLongitude>\
<eastBoundLongitude>180</eastBoundLongitude><southBoundLatitude>-90</southBoundLatitude>\
<northBoundLatitude>90</northBoundLatitude></EX_GeographicBoundingBox>\n";

// A layer: its name, its title and its one style (OGC 06-042, 7.2.4.6).
fn write_layer_line(name: &Text, layer: &Layer, document: &mut Vec<u8>) -> Result<(), AllocError>
    ensures { OnOk result
        (document.new.items ≡ document.old.items ++ layer_line (name.now, layer.now)) }
{
    write_text("<Layer queryable=\"0\">", document)?;
    write_element("Name", name, document)?;
    write_element("Title", layer.title(), document)?;
    write_text(ONE_STYLE, document)?;
    Ok(())
}

const ONE_STYLE: &str = "<Style><Name>default</Name><Title>default</Title></Style></Layer>\n";

// A line for each layer, in order.
#[tactic(auto, using(crate::proofs::LayerLines::one_line_more))]
fn write_layer_lines(map: &MapDef, document: &mut Vec<u8>) -> Result<(), AllocError>
    ensures { OnOk result
        (document.new.items ≡ document.old.items ++ flat_map layer_line map.now.layers) }
{
    for i in 0..map.layer_count() {
        let (name, layer) = map.layer(i);
        write_layer_line(name, layer, document)?;
    }
    Ok(())
}

// The layers, nested in the one that represents the map (OGC 06-042, 7.2.4.5).
fn write_layers(map: &MapDef, document: &mut Vec<u8>) -> Result<(), AllocError>
    ensures { OnOk result (document.new.items ≡ document.old.items ++ layers map.now) }
{
    write_text("<Layer>\n", document)?;
    write_element("Title", map.title(), document)?;
    write_text("\n", document)?;
    write_text(crs_lines(map.projection()), document)?;
    write_text(WORLD, document)?;
    write_box_lines(map.projection(), map.extent(), document)?;
    write_layer_lines(map, document)?;
    write_text("</Layer>\n", document)?;
    Ok(())
}

// The first two lines: the document's element has the update sequence (OGC 06-042, 7.2.3.5).
fn write_opening(seq: u16, document: &mut Vec<u8>) -> Result<(), AllocError>
    ensures { OnOk result (document.new.items ≡ document.old.items ++ opening seq) }
{
    write_text("<?xml version=\"1.0\" encoding=\"UTF-8\"?>\n", document)?;
    write_text(
        "<WMS_Capabilities version=\"1.3.0\" updateSequence=\"",
        document,
    )?;
    write_decimal(usize::from(seq), document)?;
    write_text("\" xmlns=\"http://www.opengis.net/wms\"", document)?;
    write_text(" xmlns:xlink=\"http://www.w3.org/1999/xlink\">\n", document)?;
    Ok(())
}

/// The service metadata of a map at an update sequence (OGC 06-042, 7.2.4 and annex E.1).
pub(crate) fn capabilities(alloc: Global, seq: u16, map: &MapDef) -> Result<Vec<u8>, AllocError>
    ensures { IfOk result (λ document. document.items ≡ capabilities seq map.now) }
{
    let mut document = Vec::new(alloc);
    write_opening(seq, &mut document)?;
    write_service(map, &mut document)?;
    write_text("<Capability>\n", &mut document)?;
    write_requests(map, &mut document)?;
    write_layers(map, &mut document)?;
    write_text("</Capability>\n</WMS_Capabilities>\n", &mut document)?;
    Ok(document)
}
