//! Worked examples of the bytes of rows, proved by computing them. The public functions here do nothing.

ghost use Rattle.std.specs.Prelude.{◌≡◌, codes, Some, None};
ghost use Rattle.farm_rows.specs.declared.farm_row.FarmRow.TheVariants as row;
ghost use Rattle.row_codec.specs.RowExamples.{dead_row, depend_row, free_row, head, host_row, job_row, layer_row, limit_row, met_row, unlimited_row, running_row, sub_row};
ghost use Rattle.row_codec.specs.RowFields.{row_text};
ghost use Rattle.row_codec.specs.RowReading.{row_from};

/// The row of a farm that was opened at moment 0, and others.
pub fn bytes_of_rows()
    ensures head { row_text (row.Head head) ≡ codes "{\"depends\":1,\"finishes\":1,\"format\":2,\"jobs\":1,\"moment\":0}" }
    ensures sub { row_text (row.Sub sub_row) ≡ codes "{\"burst\":2000,\"size\":1000}" }
    ensures host { row_text (row.Host 0 host_row) ≡ codes "{\"alloc\":0,\"boot\":1,\"cores\":1600,\"heard\":0,\"lock\":\"OPEN\",\"memory\":67108864,\"name\":\"h1\",\"nonce\":7,\"seq\":0,\"state\":\"UP\",\"tags\":[]}" }
    ensures job { row_text (row.Job job_row) ≡ codes "{\"auto_eat\":false,\"eaten\":0,\"facility\":\"farm\",\"finish\":0,\"frames\":1,\"max_retries\":3,\"name\":\"a\",\"paused\":false,\"priority\":100,\"shot\":\"\",\"show\":0,\"state\":\"PENDING\",\"succeeded\":0,\"user\":\"\"}" }
    ensures layer { row_text (row.Layer layer_row) ≡ codes "{\"command\":\"echo \\\"a\\\"\",\"cores\":100,\"limit\":3,\"memory\":3355443,\"name\":\"render\",\"range\":\"-2-7\",\"tags\":[\"general\",\"gpu\"]}" }
    ensures free { row_text (row.Frame free_row) ≡ codes "{\"state\":\"FREE\",\"version\":3}" }
    ensures dead { row_text (row.Frame dead_row) ≡ codes "{\"job\":1,\"layer\":0,\"number\":1,\"retries\":0,\"state\":\"DEAD\",\"version\":16777215}" }
    ensures running { row_text (row.Frame running_row)
        ≡ codes "{\"boot\":2,\"host\":0,\"job\":1,\"layer\":0,\"number\":-2,\"retries\":1,\"since\":30,\"state\":\"RUNNING\",\"version\":4}" }
    ensures depend { row_text (row.Depend depend_row)
        ≡ codes "{\"any\":false,\"frame\":7,\"job\":1,\"kind\":\"FRAME_ON_LAYER\",\"layer\":\"render\",\"met_all\":false,\"on_job\":2,\"on_layer\":\"sim\"}" }
    ensures limit { row_text (row.Limit 2 limit_row) ≡ codes "{\"most\":40,\"name\":\"arnold\"}" }
    ensures met { row_text (row.Met met_row) ≡ codes "{\"met\":true}" }
{}

/// A row is read from its bytes alone, and only for its kind and id.
pub fn rows_of_bytes()
    ensures sub { row_from 2 4 16 (codes "{\"burst\":2000,\"size\":1000}") ≡ Some (row.Sub sub_row) }
    ensures blank { row_from 2 4 16 (codes "{\"burst\":2000, \"size\":1000}") ≡ None }
    ensures order { row_from 2 4 16 (codes "{\"size\":1000,\"burst\":2000}") ≡ None }
    ensures more { row_from 2 4 16 (codes "{\"a\":1,\"burst\":2000,\"size\":1000}") ≡ None }
    ensures past { row_from 2 4 16 (codes "{\"burst\":4294967296,\"size\":1000}") ≡ None }
    ensures kind { row_from 2 5 16 (codes "{\"burst\":2000,\"size\":1000}") ≡ None }
    ensures old { row_from 1 7 64 (codes "{\"command\":\"echo \\\"a\\\"\",\"cores\":100,\"memory\":3355443,\"name\":\"render\",\"range\":\"-2-7\",\"tags\":[\"general\",\"gpu\"]}") ≡ Some (row.Layer unlimited_row) }
    ensures new { row_from 2 7 64 (codes "{\"command\":\"echo \\\"a\\\"\",\"cores\":100,\"memory\":3355443,\"name\":\"render\",\"range\":\"-2-7\",\"tags\":[\"general\",\"gpu\"]}") ≡ None }
    ensures id { row_from 2 1 1 (codes "{\"depends\":1,\"finishes\":1,\"format\":1,\"jobs\":1,\"moment\":0}") ≡ None }
{}
