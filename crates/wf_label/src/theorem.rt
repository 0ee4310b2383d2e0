//! Theorems about the label order, the placed set and the letters' ink.
ghost use Rattle.wf_label.specs.Letters.{LettersInkTheirSetBits, LettersStayInTheirBox, PixelsOutsideBoxesStay};
ghost use Rattle.wf_label.specs.Order.{CandidatesAreSorted};
ghost use Rattle.wf_label.specs.Overlap.{BoxesOverlapWhereTheyShare};
ghost use Rattle.wf_label.specs.LabelLayout.{EachListHasOnePlacedSet, EachListHasOneLayout, PlacedIsTheLayout};

/// Any list of labels has exactly one placed set in any view. So its members in label order are one
/// list, which the definitions also give as a function. A theorem: the call does nothing.
pub fn there_is_one_placed_set()
    ensures one_set { EachListHasOnePlacedSet }
    ensures one_list { EachListHasOneLayout }
    ensures computed { PlacedIsTheLayout }
{}

/// Two boxes that have pixels overlap exactly where a pixel lies in both: so a label that isn't
/// forced is placed exactly where no pixel of its widened box is one of a label placed before it. A
/// theorem: the call does nothing.
pub fn boxes_overlap_where_they_share()
    ensures { BoxesOverlapWhereTheyShare }
{}

/// `candidates` lists every label of the listed layers once and no other, sorted: the higher
/// priority first; within a priority, the layer that is listed later; within a layer, the earlier
/// feature. It is the only such list. A theorem: the call does nothing.
pub fn candidates_are_sorted()
    ensures { CandidatesAreSorted }
{}

/// A label of positive scale inks a pixel iff the pixel lies in the square of a set bit of one of
/// its characters' glyphs. So no label inks a pixel outside its box, and a picture's pixels outside
/// all boxes keep their colour. A theorem: the call does nothing.
pub fn letters_ink_their_set_bits()
    ensures bits { LettersInkTheirSetBits }
    ensures in_box { LettersStayInTheirBox }
    ensures outside { PixelsOutsideBoxesStay }
{}
