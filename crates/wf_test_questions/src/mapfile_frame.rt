//! Pieces of mapfiles, and the mapfile around them.
use std::alloc::Global;
use wf_def::MapDef;
use wf_mapfile::MapFault;
use wf_test_table::{Transcript, Unanswered};

/// What comes before and after a piece, to make a mapfile of it.
#[derive(Clone, Copy)]
pub(crate) struct Wrapping {
    pub front: &'static str,
    pub back: &'static str,
}

/// The mapfile around a piece: `map` is a whole mapfile; `layers` are in a map, `layer` in its
/// layer, `kinds` in one whose features have a kind and a size, `class` in a class of the layer.
pub(crate) fn wrapping_of(words: &str) -> Result<Wrapping, Unanswered> {
    match words {
        "map" => Ok(Wrapping {
            front: "",
            back: "",
        }),
        "layers" => Ok(Wrapping {
            front: "MAP EXTENT 0 0 4 4 PROJECTION \"init=epsg:3857\" END ",
            back: " END",
        }),
        "layer" => Ok(Wrapping {
            front: "MAP EXTENT 0 0 4 4 PROJECTION \"init=epsg:3857\" END LAYER NAME a TYPE POINT ",
            back: " END END",
        }),
        "kinds" => Ok(Wrapping {
            front: "MAP EXTENT 0 0 4 4 PROJECTION \"init=epsg:3857\" END LAYER NAME a TYPE POINT PROCESSING 'ITEMS=kind,size' ",
            back: " END END",
        }),
        "class" => Ok(CLASS),
        _ => Err(Unanswered::BadWords),
    }
}

/// The mapfile around what follows the word CLASS. Its back ends the layer and the map: the piece
/// ends its class itself.
pub(crate) const CLASS: Wrapping = Wrapping {
    front: "MAP EXTENT 0 0 4 4 PROJECTION \"init=epsg:3857\" END LAYER NAME a TYPE POINT CLASS ",
    back: " END END",
};

fn read_written(alloc: Global, mapfile: &Transcript) -> Result<MapDef, MapFault> {
    match mapfile.finished_text() {
        Ok(mapfile) => wf_mapfile::read(alloc, mapfile),
        Err(_) => Err(MapFault::Memory),
    }
}

impl Wrapping {
    /// Reads a piece in the mapfile around it.
    pub fn read(self, alloc: Global, piece: &[u8]) -> Result<MapDef, MapFault> {
        let mut mapfile = Transcript::new(alloc);
        mapfile.text(self.front);
        mapfile.bytes(piece);
        mapfile.text(self.back);
        let map = read_written(alloc, &mapfile);
        drop(mapfile);
        map
    }
}
