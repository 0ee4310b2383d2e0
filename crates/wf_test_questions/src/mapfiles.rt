//! Mapfiles: the map that they mean, or the error.
use crate::mapfile_frame::{CLASS, Wrapping, wrapping_of};
use crate::shown::{write_class, write_fault, write_layers, write_map};
use crate::texts::text_of;
use wf_def::{Class, Feature, Layer, MapDef};
use wf_mapfile::MapFault;
use wf_test_table::{Answered, CaseInput, Transcript, Unanswered};
use wf_text::Text;

// What is written about a map.
#[derive(Clone, Copy)]
enum Reported<'a> {
    Map,
    Layers,
    Classes,
    Sizes,
    ClassesOfFeatures,
    Attributes(&'a Text),
}

impl Reported<'_> {
    fn write(self, map: &MapDef, answer: &mut Transcript) {
        match self {
            Reported::Map => write_map(map, answer),
            Reported::Layers => write_layers(map, answer),
            Reported::Classes => write_classes(map, answer),
            Reported::Sizes => write_sizes(map, answer),
            Reported::ClassesOfFeatures => write_classes_of_features(map, answer),
            Reported::Attributes(name) => write_attributes(map, name, answer),
        }
    }

    fn print(self, map: MapDef, answer: &mut Transcript) {
        self.write(&map, answer);
        drop(map);
    }

    fn print_copy(self, map: MapDef, answer: &mut Transcript) {
        let copied: Result<_, _> = map.clone();
        drop(map);
        match copied {
            Ok(copy) => self.print(copy, answer),
            Err(_) => answer.cut(),
        }
    }

    // Prints the map that an input means in a wrapping, or the error.
    fn print_read(self, asked: CaseInput<'_>, wrapping: Wrapping, answer: &mut Transcript) {
        match wrapping.read(asked.alloc, asked.input) {
            Ok(map) => self.print(map, answer),
            Err(fault) => write_fault(fault, wrapping.front.len(), answer),
        }
    }
}

/// `map`: a copy of the map, without its layers, or the error.
pub(crate) fn map(asked: CaseInput<'_>, answer: &mut Transcript) -> Answered {
    match wf_mapfile::read(asked.alloc, asked.input) {
        Ok(map) => Reported::Map.print_copy(map, answer),
        Err(fault) => write_fault(fault, 0, answer),
    }
    Ok(())
}

/// `layers PIECE`: a copy of the layers, or the error.
pub(crate) fn layers(asked: CaseInput<'_>, answer: &mut Transcript) -> Answered {
    let wrapping = wrapping_of(asked.words.rest())?;
    match wrapping.read(asked.alloc, asked.input) {
        Ok(map) => Reported::Layers.print_copy(map, answer),
        Err(fault) => write_fault(fault, wrapping.front.len(), answer),
    }
    Ok(())
}

fn write_copy_of_class(class: &Class, answer: &mut Transcript) {
    match class.clone() {
        Ok(copy) => {
            write_class(&copy, answer);
            drop(copy);
        }
        Err(_) => answer.cut(),
    }
}

fn write_classes(map: &MapDef, answer: &mut Transcript) {
    for index in 0..map.layer_count() {
        let (_, layer) = map.layer(index);
        for class in layer.classes() {
            write_copy_of_class(class, answer);
        }
    }
}

/// `class`: a copy of the class whose text after the word CLASS is the input, or the error.
///
/// The input alone leaves the layer and the map open, which is M6 at its end. It has ended its
/// class where the ends of the layer and of the map make a mapfile of it.
pub(crate) fn class(asked: CaseInput<'_>, answer: &mut Transcript) -> Answered {
    let open = Wrapping {
        front: CLASS.front,
        back: "",
    };
    match open.read(asked.alloc, asked.input) {
        Ok(map) => {
            drop(map);
            return Err(Unanswered::BadWords);
        }
        Err(MapFault::MissingEnd(end)) => print_class(asked, end, answer),
        Err(cut) => write_fault(cut, open.front.len(), answer),
    }
    Ok(())
}

fn print_class(asked: CaseInput<'_>, end: usize, answer: &mut Transcript) {
    match CLASS.read(asked.alloc, asked.input) {
        Ok(map) => Reported::Classes.print(map, answer),
        Err(MapFault::Memory) => answer.cut(),
        Err(_) => write_fault(MapFault::MissingEnd(end), CLASS.front.len(), answer),
    }
}

fn count_points(feature: &Feature) -> usize {
    let mut points = 0usize;
    for part in feature.parts() {
        points = points.saturating_add(part.len());
    }
    points
}

fn count_points_of_layer(layer: &Layer) -> usize {
    let mut points = 0usize;
    for feature in layer.features() {
        points = points.saturating_add(count_points(feature));
    }
    points
}

fn write_sizes(map: &MapDef, answer: &mut Transcript) {
    let (mut classes, mut features, mut points) = (0usize, 0usize, 0usize);
    for index in 0..map.layer_count() {
        let (_, layer) = map.layer(index);
        classes = classes.saturating_add(layer.classes().len());
        features = features.saturating_add(layer.features().len());
        points = points.saturating_add(count_points_of_layer(layer));
    }
    answer.count(map.layer_count());
    answer.text(" layers, ");
    answer.count(classes);
    answer.text(" classes, ");
    answer.count(features);
    answer.text(" features, ");
    answer.count(points);
    answer.line(" points");
}

/// `sizes PIECE`: how much of everything the map has, or the error.
pub(crate) fn sizes(asked: CaseInput<'_>, answer: &mut Transcript) -> Answered {
    let wrapping = wrapping_of(asked.words.rest())?;
    Reported::Sizes.print_read(asked, wrapping, answer);
    Ok(())
}

fn write_class_of(layer: &Layer, feature: &Feature, answer: &mut Transcript) {
    match layer.class_of(feature) {
        Some(index) => {
            answer.text("class ");
            answer.count(index);
            answer.line("");
        }
        None => answer.line("none"),
    }
}

fn write_classes_of_features(map: &MapDef, answer: &mut Transcript) {
    for index in 0..map.layer_count() {
        let (_, layer) = map.layer(index);
        for feature in layer.features() {
            write_class_of(layer, feature, answer);
        }
    }
}

/// `class_of`: the index of each feature's class, where the input is in a layer whose features have
/// a kind and a size.
pub(crate) fn class_of(asked: CaseInput<'_>, answer: &mut Transcript) -> Answered {
    let wrapping = wrapping_of("kinds")?;
    Reported::ClassesOfFeatures.print_read(asked, wrapping, answer);
    Ok(())
}

/// Appends a value in quotes, or that there is none.
pub(crate) fn write_value(value: Option<&[u8]>, answer: &mut Transcript) {
    match value {
        Some(value) => {
            answer.text("\"");
            answer.bytes(value);
            answer.line("\"");
        }
        None => answer.line("none"),
    }
}

fn write_attributes(map: &MapDef, name: &Text, answer: &mut Transcript) {
    for index in 0..map.layer_count() {
        let (_, layer) = map.layer(index);
        for feature in layer.features() {
            write_value(layer.attribute(feature, name), answer);
        }
    }
}

/// `attribute_of NAME`: each feature's attribute of the name, where the input is in a layer whose
/// features have a kind and a size.
pub(crate) fn attribute_of(asked: CaseInput<'_>, answer: &mut Transcript) -> Answered {
    let wrapping = wrapping_of("kinds")?;
    match text_of(asked.alloc, asked.words.rest().as_bytes()) {
        Ok(name) => {
            Reported::Attributes(&name).print_read(asked, wrapping, answer);
            drop(name);
            Ok(())
        }
        Err(unanswered) => Err(unanswered),
    }
}
