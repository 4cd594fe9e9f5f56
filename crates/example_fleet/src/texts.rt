//! The two files of the example.

/// Saw logs of pine in two diameter classes and two lengths. Prices are recalculated after every fourth stem, within
/// half of their base prices.
pub const INSTRUCTION: &str = "1 2 APT~901 1 100~902 1 4~903 1 500~910 1 1~
911 1 saw log~912 1 1~913 1 1~914 1 1~915 1 120 200~915 2 600~
916 1 3000 4000~917 1 400 500 600 800~918 1 1 1 1 1~
";

/// What the mill wants later on: nothing but long logs of the thicker class.
pub const TARGETS: [u32; 4] = [0, 0, 0, 1];

/// A stem of pine, with diameters in mm, one for each 100 mm from the butt. All stems of the stand are like it, so that
/// it doesn't matter which harvester cuts first.
pub const STEM: &str = "1 2 STM~
951 1 1~952 1 1~953 1 262 260 258 256 254 252 250 248 246 244 242 240 238 236 234 232 230 228 226 224 221 219
217 215 213 211 209 207 205 203 201 199 197 195 193 191 189 187 185 183 180 178 176 174 172 170 168 166 164 162
160 158 156 154 152 150 148 146 144 142 140 137 135 133 131 129 127 125 123 121 119~
";
