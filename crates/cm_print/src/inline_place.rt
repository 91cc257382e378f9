// Where the printing of inlines stands.
ghost use Rattle.std.specs.Prelude.{◌≡◌, ◌<◌, ◌≤◌, ◌+◌, ◌^◌};
ghost use Rattle.cm_print.specs.InlineNodes.{images_in, place_behind_node, place_of};

use cm_inlines::Node;
use site_base::Text;

/// Outside of images, or in the description of one with this title, inside of so many others that stand in it: there are no tags
/// in a description.
#[derive(Clone, Copy)]
pub(crate) enum Place<'a> {
    Outside,
    Described {
        title: Option<&'a Text>,
        images: usize,
    },
}

/// The place behind a node.
pub(crate) fn behind<'a>(place: Place<'a>, node: &'a Node<'_>) -> Place<'a>
    requires { images_in place < 2 ^ 63 }
    ensures place { place_of result ≡ place_behind_node (place_of place.entry) node.entry.now }
    ensures images { images_in result ≤ images_in place.entry + 1 }
{
    match place {
        Place::Outside => behind_outside(node),
        Place::Described { title, images } => behind_described(title, images, node),
    }
}

fn behind_outside<'a>(node: &'a Node<'_>) -> Place<'a>
    ensures place { place_of result ≡ place_behind_node (place_of Place.Outside) node.entry.now }
    ensures images { images_in result ≡ 0 }
{
    match node {
        Node::OpenImage(target) => Place::Described {
            title: target.title.as_ref(),
            images: 0,
        },
        _ => Place::Outside,
    }
}

fn behind_described<'a>(title: Option<&'a Text>, images: usize, node: &Node<'_>) -> Place<'a>
    requires { images < 2 ^ 63 }
    ensures place { place_of result ≡ place_behind_node (place_of (Place.Described title.entry images)) node.entry.now }
    ensures images { images_in result ≤ images + 1 }
{
    match node {
        Node::OpenImage(_) => Place::Described {
            title,
            images: images + 1,
        },
        Node::CloseImage => {
            if images == 0 {
                Place::Outside
            } else {
                Place::Described {
                    title,
                    images: images - 1,
                }
            }
        }
        _ => Place::Described { title, images },
    }
}
