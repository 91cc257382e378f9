// What threads may share. Nothing runs here: that it is proved shows it.
use crate::Memo;
use read_record::ItemMeaning;

fn is_shared<T: Send + Sync>() {}

fn memos_are_shared<M: ItemMeaning + Send + Sync>() {
    is_shared::<Memo<M>>();
}
