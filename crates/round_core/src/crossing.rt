// What threads may share. Nothing runs here: that it is proved shows it.
use crate::Made;
use read_record::ItemMeaning;

fn is_shared<T: Send + Sync>() {}

fn what_is_made_is_shared<M: ItemMeaning + Send + Sync>() {
    is_shared::<Made<M>>();
}
