//! The theorems of pictures.
ghost use Rattle.wf_picture.specs.Picture.{
  EachRequestHasAnImage,
  EachRequestHasOneImage,
  EachRequestHasOneView,
};
ghost use Rattle.wf_picture.specs.Tiles.{SharedViewsHaveOnePicture, TilesAreCropsOfOnePicture};

/// Layers, box, size and background have exactly one view and one image: the image is a function of
/// the request and the map. A theorem: the call does nothing.
pub fn there_is_one_image()
    ensures one_view { EachRequestHasOneView }
    ensures one_image { EachRequestHasOneImage }
    ensures an_image { EachRequestHasAnImage }
{
    wf_geometry::each_request_has_a_view();
}

/// Tiles whose cells are among the same four columns and the same four rows of a level are parts of
/// one picture: whichever of them is requested, the same layers, labels and colours are drawn, and
/// the tile is cut out where its cell lies. A theorem: the call does nothing.
pub fn tiles_are_crops_of_one_picture()
    ensures one_picture { SharedViewsHaveOnePicture }
    ensures crops { TilesAreCropsOfOnePicture }
{
    wf_geometry::tiles_are_parts_of_one_drawing();
}
