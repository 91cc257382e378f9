// How an evaluation ends without a text.
use site_base::SiteFault;

/// Why there is no value, with the file and the line of a fault.
pub type Stop = read_record::Stop<SiteFault>;
